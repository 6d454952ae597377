//! Laws of the definitions, and worked rows that they compute to. Each function has an empty body: its clauses are what is proved.
ghost use Rattle.std.specs.Prelude.{◌≡◌, ◌∷◌, ◌++◌, [], Some, None, codes, replicate, true, false};
ghost use Rattle.scsi_cdb.specs.declared.kind.Kind.TheVariants.{Drive, Changer};
ghost use Rattle.inquiry_data.specs.Identity.{library, unit, library_digits, library_number_in, serial_number, changer_of, DigitsReadBack, SerialNumbersAreUnique};
ghost use Rattle.inquiry_data.specs.Standard.{standard_inquiry};
ghost use Rattle.inquiry_data.specs.Designators.{device_identifier};
ghost use Rattle.inquiry_data.specs.VitalProductData.{vital_product_page, ListedPagesAreAnswered, ListsAscend};
ghost use Rattle.inquiry_data.specs.Inquiry.{inquiry_data};
ghost use Rattle.inquiry_data.specs.Rows.{first_drive, changer};

/// Law: a library's number is read from its digits.
pub fn digits_read_back()
    ensures { DigitsReadBack }
{}

/// Law: units with one serial number are one unit of one library, where logical unit numbers are below 100.
pub fn serial_numbers_are_unique()
    ensures { SerialNumbersAreUnique }
{}

/// Law: the pages that a unit lists are those that it answers, in ascending order, and fewer than 33.
pub fn listed_pages()
    ensures answered { ListedPagesAreAnswered }
    ensures ascending { ListsAscend }
{}

/// Worked rows: libraries' numbers as text and back, and serial numbers.
#[tactic(auto, unfolding(hex::specs::Hex::encode_with, hex::specs::Hex::decode_pairs))]
pub fn worked_identities()
    ensures digits { library_digits (library 0x1A2B3C4D) ≡ codes "1A2B3C4D" }
    ensures leading_zeros { library_digits (library 0xF) ≡ codes "0000000F" }
    ensures upper_case { library_number_in (codes "1A2B3C4D") ≡ Some (library 0x1A2B3C4D) }
    ensures lower_case { library_number_in (codes "1a2b3c4d") ≡ Some (library 0x1A2B3C4D) }
    ensures least { library_number_in (codes "00000000") ≡ Some (library 0) }
    ensures greatest { library_number_in (codes "FFFFFFFF") ≡ Some (library 0xFFFFFFFF) }
    ensures empty { library_number_in [] ≡ None }
    ensures six_digits { library_number_in (codes "1A2B3C") ≡ None }
    ensures seven_digits { library_number_in (codes "1A2B3C4") ≡ None }
    ensures nine_digits { library_number_in (codes "01A2B3C4D") ≡ None }
    ensures another_letter { library_number_in (codes "1A2B3C4G") ≡ None }
    ensures sign { library_number_in (codes "+1A2B3C4") ≡ None }
    ensures prefix { library_number_in (codes "0x1A2B3C") ≡ None }
    ensures space { library_number_in (codes " 1A2B3C4") ≡ None }
    ensures changer { serial_number (unit (library 0x1A2B3C4D) 0) ≡ codes "1A2B3C4D00" }
    ensures first_drive { serial_number (unit (library 0x1A2B3C4D) 1) ≡ codes "1A2B3C4D01" }
    ensures fourth_drive { serial_number (unit (library 0) 4) ≡ codes "0000000004" }
    ensures two_digits { serial_number (unit (library 0) 99) ≡ codes "0000000099" }
    ensures hundred { serial_number (unit (library 0) 100) ≡ codes "0000000000" }
    ensures changer_of_a_drive { changer_of (unit (library 7) 3) ≡ unit (library 7) 0 }
{}

/// Worked rows: standard INQUIRY data.
pub fn worked_standard_inquiry()
    ensures drive { standard_inquiry Drive ≡
        0x01 ∷ 0x80 ∷ 0x06 ∷ 0x02 ∷ 0x5B ∷ 0x00 ∷ 0x10 ∷ 0x02 ∷ 0x56 ∷ 0x54 ∷ 0x4C ∷ 0x49 ∷ 0x42 ∷ 0x20 ∷ 0x20 ∷ 0x20 ∷ 0x54 ∷ 0x41 ∷
        0x50 ∷ 0x45 ∷ 0x20 ∷ 0x44 ∷ 0x52 ∷ 0x49 ∷ 0x56 ∷ 0x45 ∷ 0x20 ∷ 0x20 ∷ 0x20 ∷ 0x20 ∷ 0x20 ∷ 0x20 ∷ 0x30 ∷ 0x30 ∷ 0x30 ∷ 0x31 ∷
        (replicate 23 0 ++ 0xA0 ∷ 0x04 ∷ 0x60 ∷ 0x05 ∷ 0x20 ∷ 0x09 ∷ 0x60 ∷ replicate 30 0) }
    ensures changer { standard_inquiry Changer ≡
        0x08 ∷ 0x80 ∷ 0x06 ∷ 0x02 ∷ 0x5B ∷ 0x00 ∷ 0x10 ∷ 0x02 ∷ 0x56 ∷ 0x54 ∷ 0x4C ∷ 0x49 ∷ 0x42 ∷ 0x20 ∷ 0x20 ∷ 0x20 ∷ 0x4D ∷ 0x45 ∷
        0x44 ∷ 0x49 ∷ 0x55 ∷ 0x4D ∷ 0x20 ∷ 0x43 ∷ 0x48 ∷ 0x41 ∷ 0x4E ∷ 0x47 ∷ 0x45 ∷ 0x52 ∷ 0x20 ∷ 0x20 ∷ 0x30 ∷ 0x30 ∷ 0x30 ∷ 0x31 ∷
        (replicate 19 0 ++ 0x01 ∷ 0x00 ∷ 0x00 ∷ 0x00 ∷ 0xA0 ∷ 0x04 ∷ 0x60 ∷ 0x04 ∷ 0x80 ∷ 0x09 ∷ 0x60 ∷ replicate 30 0) }
{}

/// Worked rows: the device identifier of the first drive of library 1A2B3C4Dh.
#[tactic(auto, unfolding(hex::specs::Hex::encode_with))]
pub fn worked_device_identifier()
    ensures first_drive { device_identifier (unit (library 0x1A2B3C4D) 1) ≡
        0x02 ∷ 0x01 ∷ 0x00 ∷ 0x22 ∷ 0x56 ∷ 0x54 ∷ 0x4C ∷ 0x49 ∷ 0x42 ∷ 0x20 ∷ 0x20 ∷ 0x20 ∷ 0x54 ∷ 0x41 ∷ 0x50 ∷ 0x45 ∷ 0x20 ∷ 0x44 ∷
        0x52 ∷ 0x49 ∷ 0x56 ∷ 0x45 ∷ 0x20 ∷ 0x20 ∷ 0x20 ∷ 0x20 ∷ 0x20 ∷ 0x20 ∷ 0x31 ∷ 0x41 ∷ 0x32 ∷ 0x42 ∷ 0x33 ∷ 0x43 ∷ 0x34 ∷ 0x44 ∷
        0x30 ∷ 0x31 ∷ [] }
{}

/// Worked rows: the pages of the first drive of library 1A2B3C4Dh, asked for by target port 1.
#[tactic(auto, unfolding(hex::specs::Hex::encode_with))]
pub fn worked_pages_of_drives()
    ensures supported_pages { vital_product_page Drive first_drive 0x00 ≡ Some (
        0x01 ∷ 0x00 ∷ 0x00 ∷ 0x0A ∷ 0x00 ∷ 0x80 ∷ 0x83 ∷ 0x86 ∷ 0x87 ∷ 0xB0 ∷ 0xB1 ∷ 0xB2 ∷ 0xB3 ∷ 0xB4 ∷ []) }
    ensures unit_serial_number { vital_product_page Drive first_drive 0x80 ≡ Some (
        0x01 ∷ 0x80 ∷ 0x00 ∷ 0x0A ∷ 0x31 ∷ 0x41 ∷ 0x32 ∷ 0x42 ∷ 0x33 ∷ 0x43 ∷ 0x34 ∷ 0x44 ∷ 0x30 ∷ 0x31 ∷ []) }
    ensures device_identification { vital_product_page Drive first_drive 0x83 ≡ Some (
        0x01 ∷ 0x83 ∷ 0x00 ∷ 0x3A ∷ 0x01 ∷ 0x03 ∷ 0x00 ∷ 0x08 ∷ 0x30 ∷ 0x56 ∷ 0x54 ∷ 0x1A ∷ 0x2B ∷ 0x3C ∷ 0x4D ∷ 0x01 ∷ 0x02 ∷ 0x01 ∷
        0x00 ∷ 0x22 ∷ 0x56 ∷ 0x54 ∷ 0x4C ∷ 0x49 ∷ 0x42 ∷ 0x20 ∷ 0x20 ∷ 0x20 ∷ 0x54 ∷ 0x41 ∷ 0x50 ∷ 0x45 ∷ 0x20 ∷ 0x44 ∷ 0x52 ∷ 0x49 ∷
        0x56 ∷ 0x45 ∷ 0x20 ∷ 0x20 ∷ 0x20 ∷ 0x20 ∷ 0x20 ∷ 0x20 ∷ 0x31 ∷ 0x41 ∷ 0x32 ∷ 0x42 ∷ 0x33 ∷ 0x43 ∷ 0x34 ∷ 0x44 ∷ 0x30 ∷ 0x31 ∷
        0x01 ∷ 0x14 ∷ 0x00 ∷ 0x04 ∷ 0x00 ∷ 0x00 ∷ 0x00 ∷ 0x01 ∷ []) }
    ensures extended_inquiry_data { vital_product_page Drive first_drive 0x86 ≡ Some (
        0x01 ∷ 0x86 ∷ 0x00 ∷ 0x3C ∷ 0x00 ∷ 0x01 ∷ 0x00 ∷ 0x01 ∷ 0x00 ∷ 0x00 ∷ 0x00 ∷ 0x00 ∷ 0x00 ∷ 0x12 ∷ replicate 50 0) }
    ensures mode_page_policy { vital_product_page Drive first_drive 0x87 ≡ Some (
        0x01 ∷ 0x87 ∷ 0x00 ∷ 0x04 ∷ 0x3F ∷ 0xFF ∷ 0x00 ∷ 0x00 ∷ []) }
    ensures device_capabilities { vital_product_page Drive first_drive 0xB0 ≡ Some (
        0x01 ∷ 0xB0 ∷ 0x00 ∷ 0x02 ∷ 0x00 ∷ 0x00 ∷ []) }
    ensures manufacturer_assigned_serial_number { vital_product_page Drive first_drive 0xB1 ≡ Some (
        0x01 ∷ 0xB1 ∷ 0x00 ∷ 0x0A ∷ 0x31 ∷ 0x41 ∷ 0x32 ∷ 0x42 ∷ 0x33 ∷ 0x43 ∷ 0x34 ∷ 0x44 ∷ 0x30 ∷ 0x31 ∷ []) }
    ensures supported_flags { vital_product_page Drive first_drive 0xB2 ≡ Some (
        0x01 ∷ 0xB2 ∷ 0x00 ∷ 0x08 ∷ replicate 8 0) }
    ensures serial_number_of_the_changer { vital_product_page Drive first_drive 0xB3 ≡ Some (
        0x01 ∷ 0xB3 ∷ 0x00 ∷ 0x0A ∷ 0x31 ∷ 0x41 ∷ 0x32 ∷ 0x42 ∷ 0x33 ∷ 0x43 ∷ 0x34 ∷ 0x44 ∷ 0x30 ∷ 0x30 ∷ []) }
    ensures element_address { vital_product_page Drive first_drive 0xB4 ≡ Some (
        0x01 ∷ 0xB4 ∷ 0x00 ∷ 0x02 ∷ 0x01 ∷ 0x00 ∷ []) }
    ensures no_page_01 { vital_product_page Drive first_drive 0x01 ≡ None }
    ensures no_page_81 { vital_product_page Drive first_drive 0x81 ≡ None }
    ensures no_page_85 { vital_product_page Drive first_drive 0x85 ≡ None }
    ensures no_page_88 { vital_product_page Drive first_drive 0x88 ≡ None }
    ensures no_page_b5 { vital_product_page Drive first_drive 0xB5 ≡ None }
    ensures no_page_c0 { vital_product_page Drive first_drive 0xC0 ≡ None }
    ensures no_page_ff { vital_product_page Drive first_drive 0xFF ≡ None }
{}

/// Worked rows: the pages of the changer of library 1A2B3C4Dh, asked for by target port 4.
#[tactic(auto, unfolding(hex::specs::Hex::encode_with))]
pub fn worked_pages_of_changers()
    ensures supported_pages { vital_product_page Changer changer 0x00 ≡ Some (
        0x08 ∷ 0x00 ∷ 0x00 ∷ 0x05 ∷ 0x00 ∷ 0x80 ∷ 0x83 ∷ 0x86 ∷ 0x87 ∷ []) }
    ensures unit_serial_number { vital_product_page Changer changer 0x80 ≡ Some (
        0x08 ∷ 0x80 ∷ 0x00 ∷ 0x0A ∷ 0x31 ∷ 0x41 ∷ 0x32 ∷ 0x42 ∷ 0x33 ∷ 0x43 ∷ 0x34 ∷ 0x44 ∷ 0x30 ∷ 0x30 ∷ []) }
    ensures device_identification { vital_product_page Changer changer 0x83 ≡ Some (
        0x08 ∷ 0x83 ∷ 0x00 ∷ 0x3A ∷ 0x01 ∷ 0x03 ∷ 0x00 ∷ 0x08 ∷ 0x30 ∷ 0x56 ∷ 0x54 ∷ 0x1A ∷ 0x2B ∷ 0x3C ∷ 0x4D ∷ 0x00 ∷ 0x02 ∷ 0x01 ∷
        0x00 ∷ 0x22 ∷ 0x56 ∷ 0x54 ∷ 0x4C ∷ 0x49 ∷ 0x42 ∷ 0x20 ∷ 0x20 ∷ 0x20 ∷ 0x4D ∷ 0x45 ∷ 0x44 ∷ 0x49 ∷ 0x55 ∷ 0x4D ∷ 0x20 ∷ 0x43 ∷
        0x48 ∷ 0x41 ∷ 0x4E ∷ 0x47 ∷ 0x45 ∷ 0x52 ∷ 0x20 ∷ 0x20 ∷ 0x31 ∷ 0x41 ∷ 0x32 ∷ 0x42 ∷ 0x33 ∷ 0x43 ∷ 0x34 ∷ 0x44 ∷ 0x30 ∷ 0x30 ∷
        0x01 ∷ 0x14 ∷ 0x00 ∷ 0x04 ∷ 0x00 ∷ 0x00 ∷ 0x00 ∷ 0x04 ∷ []) }
    ensures extended_inquiry_data { vital_product_page Changer changer 0x86 ≡ Some (
        0x08 ∷ 0x86 ∷ 0x00 ∷ 0x3C ∷ 0x00 ∷ 0x01 ∷ 0x00 ∷ 0x01 ∷ 0x00 ∷ 0x00 ∷ 0x00 ∷ 0x00 ∷ 0x00 ∷ 0x12 ∷ replicate 50 0) }
    ensures mode_page_policy { vital_product_page Changer changer 0x87 ≡ Some (
        0x08 ∷ 0x87 ∷ 0x00 ∷ 0x04 ∷ 0x3F ∷ 0xFF ∷ 0x00 ∷ 0x00 ∷ []) }
    ensures no_page_84 { vital_product_page Changer changer 0x84 ≡ None }
    ensures no_device_capabilities { vital_product_page Changer changer 0xB0 ≡ None }
    ensures no_manufacturer_assigned_serial_number { vital_product_page Changer changer 0xB1 ≡ None }
    ensures no_flags { vital_product_page Changer changer 0xB2 ≡ None }
    ensures no_serial_number_of_a_changer { vital_product_page Changer changer 0xB3 ≡ None }
    ensures no_element_address { vital_product_page Changer changer 0xB4 ≡ None }
{}

/// Worked rows: which data an INQUIRY asks for.
#[tactic(auto, unfolding(hex::specs::Hex::encode_with))]
pub fn worked_inquiries()
    ensures standard { inquiry_data Drive first_drive false 0x00 ≡ Some (standard_inquiry Drive) }
    ensures standard_of_a_changer { inquiry_data Changer changer false 0x00 ≡ Some (standard_inquiry Changer) }
    ensures page_without_evpd { inquiry_data Drive first_drive false 0x80 ≡ None }
    ensures any_code_without_evpd { inquiry_data Changer changer false 0x01 ≡ None }
    ensures serial_number { inquiry_data Drive first_drive true 0x80 ≡ Some (0x01 ∷ 0x80 ∷ 0x00 ∷ 0x0A ∷ codes "1A2B3C4D01") }
    ensures page_of_drives { inquiry_data Changer changer true 0xB4 ≡ None }
{}
