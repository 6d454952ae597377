//! Places, lengths and codes of mode parameters (SPC-4, "Mode parameter list formats" and "Mode parameters"; SSC-4 and SMC-3, "Mode
//! parameters").

/// The length of the header of MODE SENSE(6) and MODE SELECT(6).
pub const HEADER_OF_SIX: usize = 4;

/// The length of the header of MODE SENSE(10) and MODE SELECT(10).
pub const HEADER_OF_TEN: usize = 8;

/// How many bytes of the header follow MODE DATA LENGTH.
pub const REST_OF_SIX: usize = 3;

pub const REST_OF_TEN: usize = 6;

/// Where BLOCK DESCRIPTOR LENGTH is, one byte.
pub const DESCRIPTOR_LENGTH_OF_SIX: usize = 3;

/// Where BLOCK DESCRIPTOR LENGTH is, two bytes.
pub const DESCRIPTOR_LENGTH_OF_TEN: usize = 6;

/// The byte of LONGLBA, and its bit.
pub const LONG_LBA: usize = 4;

pub const LONG_LBA_BIT: u8 = 0;

/// The length of a block descriptor.
pub const BLOCK_DESCRIPTOR: usize = 8;

/// Where BLOCK LENGTH is in a block descriptor, three bytes.
pub const BLOCK_LENGTH: usize = 5;

/// The block length with every bit set.
pub const ALL_BITS_OF_BLOCK_LENGTH: u32 = 0xFF_FFFF;

/// DENSITY CODE (profile).
pub const DENSITY: u8 = 0x00;

/// MEDIUM TYPE of a volume (profile).
pub const VOLUME_MEDIUM: u8 = 0x80;

/// MEDIUM TYPE of an empty bay, and of a changer.
pub const NO_MEDIUM: u8 = 0x00;

/// DEVICE-SPECIFIC PARAMETER of a drive: buffered mode 1.
pub const BUFFERED: u8 = 0x10;

/// The same with WP.
pub const BUFFERED_AND_PROTECTED: u8 = 0x90;

/// DEVICE-SPECIFIC PARAMETER of a changer.
pub const NOT_SPECIFIC: u8 = 0x00;

/// The two bits of PC.
pub const PAGE_CONTROL_BITS: u8 = 0x03;

// Page codes that ask for none and for all pages, and subpage codes.
pub const NO_PAGE_CODE: u8 = 0x00;

pub const ALL_PAGE_CODES: u8 = 0x3F;

pub const NO_SUBPAGE_CODE: u8 = 0x00;

pub const ALL_SUBPAGE_CODES: u8 = 0xFF;

// Page codes of drives and changers.
pub const READ_WRITE_ERROR_RECOVERY: u8 = 0x01;

pub const DISCONNECT_RECONNECT: u8 = 0x02;

pub const CONTROL: u8 = 0x0A;

pub const DATA_COMPRESSION: u8 = 0x0F;

pub const DEVICE_CONFIGURATION: u8 = 0x10;

pub const MEDIUM_PARTITION: u8 = 0x11;

pub const INFORMATIONAL_EXCEPTIONS_CONTROL: u8 = 0x1C;

pub const MEDIUM_CONFIGURATION: u8 = 0x1D;

pub const ELEMENT_ADDRESS_ASSIGNMENT: u8 = 0x1D;

pub const TRANSPORT_GEOMETRY_PARAMETERS: u8 = 0x1E;

pub const DEVICE_CAPABILITIES: u8 = 0x1F;

// PAGE LENGTH of each, the number of bytes after the first two.
pub const READ_WRITE_ERROR_RECOVERY_LENGTH: u8 = 0x0A;

pub const DISCONNECT_RECONNECT_LENGTH: u8 = 0x0E;

pub const CONTROL_LENGTH: u8 = 0x0A;

pub const DATA_COMPRESSION_LENGTH: u8 = 0x0E;

pub const DEVICE_CONFIGURATION_LENGTH: u8 = 0x0E;

pub const MEDIUM_PARTITION_LENGTH: u8 = 0x06;

pub const INFORMATIONAL_EXCEPTIONS_CONTROL_LENGTH: u8 = 0x0A;

pub const MEDIUM_CONFIGURATION_LENGTH: u8 = 0x1E;

pub const ELEMENT_ADDRESS_ASSIGNMENT_LENGTH: u8 = 0x12;

pub const TRANSPORT_GEOMETRY_PARAMETERS_LENGTH: u8 = 0x02;

pub const DEVICE_CAPABILITIES_LENGTH: u8 = 0x12;

// The head of a page: the byte of the page code and SPF, the bits of the page code, and PAGE LENGTH.
pub const PAGE_CODE: usize = 0;

pub const PAGE_CODE_BITS: u8 = 0x3F;

pub const SUBPAGE_FORMAT_BIT: u8 = 6;

pub const PAGE_LENGTH: usize = 1;

pub const SUBPAGE_LENGTH: usize = 2;

pub const PAGE_HEADER: usize = 2;

pub const SUBPAGE_HEADER: usize = 4;

/// READ RETRY COUNT and WRITE RETRY COUNT (profile).
pub const RETRIES: u8 = 0x08;

/// GLTSD, byte 2 of the control page.
pub const GLOBAL_LOGGING_DISABLED: u8 = 0x02;

// Data compression page, byte 2: DCE and DCC, and byte 3: DDE; the algorithm (profile).
pub const COMPRESSION_FLAGS: usize = 2;

pub const COMPRESSION_ENABLED_BIT: u8 = 7;

pub const COMPRESSION_ENABLED: u8 = 0x80;

pub const COMPRESSION_ON: u8 = 0xC0;

pub const COMPRESSION_OFF: u8 = 0x40;

pub const DECOMPRESSION_ENABLED: u8 = 0x80;

pub const ALGORITHM: u8 = 0xFF;

// Device configuration page: CAF, in byte 2; byte 8, identifiers of objects; byte 10, EEG and SEW; byte 14, the algorithm; byte 15,
// REWIND ON RESET.
pub const ACTIVE_FORMAT: usize = 2;

pub const CHANGE_ACTIVE_FORMAT_BIT: u8 = 5;

pub const OBJECT_IDENTIFIERS: u8 = 0x40;

pub const END_OF_DATA_AND_SYNCHRONIZATION: u8 = 0x18;

pub const SELECTED_ALGORITHM: usize = 14;

pub const SOME_ALGORITHM: u8 = 0x01;

pub const NO_ALGORITHM: u8 = 0x00;

pub const ALL_BITS: u8 = 0xFF;

pub const REWIND_ON_RESET: u8 = 0x08;

// Medium partition page: byte 3, ADDITIONAL PARTITIONS DEFINED; byte 4, sizes in megabytes; byte 5, format and partition are recognized.
pub const ADDITIONAL_PARTITIONS: usize = 3;

pub const MEGABYTES: u8 = 0x10;

pub const FORMAT_AND_PARTITION: u8 = 0x03;

// Informational exceptions control page: byte 2, DEXCPT; byte 3, MRIE (profile).
pub const EXCEPTIONS_DISABLED: u8 = 0x08;

pub const CONDITIONAL_RECOVERED_ERROR: u8 = 0x03;

// Device capabilities page, byte 3: the reader of volume tags and SMC-2's capabilities.
pub const READER_AND_CAPABILITIES: u8 = 0x03;

// Device capabilities page: sets of element types.
pub const DRIVES_AND_PORTS_AND_STORAGE: u8 = 0x0E;

pub const DRIVES_AND_STORAGE: u8 = 0x0A;

pub const PORTS_AND_STORAGE: u8 = 0x06;

pub const STORAGE: u8 = 0x02;

pub const NO_ELEMENTS: u8 = 0x00;
