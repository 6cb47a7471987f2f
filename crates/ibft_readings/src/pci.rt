// The PCI word.
ghost use Rattle.std.specs.Prelude.{◌≡◌};
ghost use Rattle.ibft_readings.specs.Readings.{pci_of};

// The parts of a PCI word.
#[derive(Clone, Copy)]
pub struct Pci {
    pub bus: u8,
    pub device: u8,
    pub function: u8,
}

// The word is bus x 256 + device x 8 + function.
pub fn split_pci(word: u16) -> Pci
    ensures { result ≡ pci_of word }
{
    Pci {
        bus: (word >> 8) as u8,
        device: (word >> 3 & 31) as u8,
        function: (word & 7) as u8,
    }
}
