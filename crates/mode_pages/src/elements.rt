ghost use Rattle.std.specs.Prelude.{◌≡◌};

/// The elements of one type: the first address and their number.
#[derive(Clone, Copy, Debug)]
pub struct ElementRange {
    pub first: u16,
    pub count: u16,
}

impl ElementRange {
    ghost use Rattle.mode_pages.specs.ChangerPages.{assigned};

    /// The four bytes of the range in the element address assignment page.
    pub(crate) fn bytes(self) -> [u8; 4]
        ensures { result ≡ assigned self }
    {
        let [a1, a0] = self.first.to_be_bytes();
        let [n1, n0] = self.count.to_be_bytes();
        [a1, a0, n1, n0]
    }
}

/// Where the elements of a medium changer are (SMC-3, "Element address assignment mode page").
#[derive(Clone, Copy, Debug)]
pub struct ElementAddresses {
    pub medium_transport: ElementRange,
    pub storage: ElementRange,
    pub import_export: ElementRange,
    pub data_transfer: ElementRange,
}

impl ElementAddresses {
    ghost use Rattle.mode_pages.specs.ChangerPages.{has_import_export};

    /// Whether there are import/export elements.
    pub(crate) fn has_import_export(&self) -> bool
        ensures { result ≡ has_import_export self.now }
    {
        self.import_export.count != 0
    }
}
