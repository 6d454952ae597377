/// What a READ ELEMENT STATUS asks for (SMC-3, "READ ELEMENT STATUS command").
#[derive(Clone, Copy, Debug, PartialEq, Eq)]
pub struct StatusRequest {
    /// ELEMENT TYPE CODE: 1 medium transport, 2 storage, 3 import/export, 4 data transfer elements; 0 asks for all.
    pub element_type_code: u8,
    /// STARTING ELEMENT ADDRESS: elements with a lower address aren't reported.
    pub starting_element_address: u16,
    /// NUMBER OF ELEMENTS: how many are reported at most.
    pub number_of_elements: u16,
    /// VOLTAG: descriptors have the primary volume tag information.
    pub volume_tags: bool,
    /// DVCID: descriptors of data transfer elements have the device identifier of the drive.
    pub device_identifiers: bool,
}
