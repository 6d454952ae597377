ghost use Rattle.std.specs.Prelude.{◌≡◌, ◌++◌};
ghost use Rattle.byteorder.specs.Endian.{big_bytes};
ghost use Rattle.iscsi_pdu.specs.Fields.{halves};

/// A basic header segment but for the lengths of what follows it, in its parts: bytes 0 to 3, bytes 8 to 15, and two times
/// four rows of four bytes.
#[derive(Clone, Copy)]
pub(crate) struct Header {
    pub(crate) start: [u8; 4],
    pub(crate) lun: [u8; 8],
    pub(crate) middle: [u8; 16],
    pub(crate) tail: [u8; 16],
}

/// Four rows, a number each.
pub(crate) fn rows(a: u32, b: u32, c: u32, d: u32) -> [u8; 16]
    ensures { result ≡ big_bytes 4 a ++ big_bytes 4 b ++ big_bytes 4 c ++ big_bytes 4 d }
{
    let [a3, a2, a1, a0] = a.to_be_bytes();
    let [b3, b2, b1, b0] = b.to_be_bytes();
    let [c3, c2, c1, c0] = c.to_be_bytes();
    let [d3, d2, d1, d0] = d.to_be_bytes();
    [
        a3, a2, a1, a0, b3, b2, b1, b0, c3, c2, c1, c0, d3, d2, d1, d0,
    ]
}

/// Four rows, a number each, but for the second, which has two numbers of two bytes.
pub(crate) fn rows_with_halves(a: u32, b: (u16, u16), c: u32, d: u32) -> [u8; 16]
    ensures { result ≡ big_bytes 4 a ++ halves b.0 b.1 ++ big_bytes 4 c ++ big_bytes 4 d }
{
    let [a3, a2, a1, a0] = a.to_be_bytes();
    let [b3, b2] = b.0.to_be_bytes();
    let [b1, b0] = b.1.to_be_bytes();
    let [c3, c2, c1, c0] = c.to_be_bytes();
    let [d3, d2, d1, d0] = d.to_be_bytes();
    [
        a3, a2, a1, a0, b3, b2, b1, b0, c3, c2, c1, c0, d3, d2, d1, d0,
    ]
}
