// The NIC structure.
ghost use Rattle.std.specs.Prelude.{◌≡◌};
ghost use Rattle.ibft_layout.specs.Layout.{nic, kind_field};
ghost use Rattle.ibft_layout.specs.Shapes.{shape_of, field_shape};

use crate::shape::{FLAGS, FieldShape, LONGEST, Shape, StringShape, words_of};
use crate::string_words::StringWords;

#[derive(Clone, Copy)]
pub struct Nic {
    pub flags: u8,
    pub address: [u8; 16],
    pub prefix: u8,
    pub origin: u8,
    pub gateway: [u8; 16],
    pub dns: [u8; 16],
    pub second_dns: [u8; 16],
    pub dhcp: [u8; 16],
    pub vlan: u16,
    pub mac: [u8; 6],
    pub pci: u16,
    pub host: StringWords,
}

impl Nic {
    pub const ID: u8 = 3;

    pub const VERSION: u8 = 1;

    pub const LENGTH: u16 = 102;
    // The mask of the flag bits that are not named (flag bits 0 to 2: valid, selected, global).
    pub const RESERVED: u8 = 0xF8;

    // Its fields behind the flags.
    pub const ADDRESS: FieldShape = FieldShape { at: 6, width: 16 };

    pub const PREFIX: FieldShape = FieldShape { at: 22, width: 1 };

    pub const ORIGIN: FieldShape = FieldShape { at: 23, width: 1 };

    pub const GATEWAY: FieldShape = FieldShape { at: 24, width: 16 };

    pub const DNS: FieldShape = FieldShape { at: 40, width: 16 };

    pub const SECOND_DNS: FieldShape = FieldShape { at: 56, width: 16 };

    pub const DHCP: FieldShape = FieldShape { at: 72, width: 16 };

    pub const VLAN: FieldShape = FieldShape { at: 88, width: 2 };

    pub const MAC: FieldShape = FieldShape { at: 90, width: 6 };

    pub const PCI: FieldShape = FieldShape { at: 96, width: 2 };

    // Its strings.
    pub const HOST: StringShape = StringShape {
        at: 98,
        longest: LONGEST,
        host: true,
        secret: false,
    };

    // What the layout knows of the kind.
    pub const SHAPE: Shape = Shape {
        id: Self::ID,
        version: Self::VERSION,
        length: Self::LENGTH,
        reserved: Self::RESERVED,
        chap: false,
    };

    // The constant as a call, which promises what it is.
    pub fn shape() -> Shape
        ensures { result ≡ shape_of nic }
    {
        Self::SHAPE
    }

    // Field n of a NIC: its flags, then those behind them, then the two words of each string; past the last, its flags.
    #[tactic(auto, unfolding(crate::specs::Layout::kind_field))]
    pub(crate) fn field(n: u8) -> FieldShape
        ensures { result ≡ field_shape (kind_field nic n) }
    {
        match n {
            1 => Self::ADDRESS,
            2 => Self::PREFIX,
            3 => Self::ORIGIN,
            4 => Self::GATEWAY,
            5 => Self::DNS,
            6 => Self::SECOND_DNS,
            7 => Self::DHCP,
            8 => Self::VLAN,
            9 => Self::MAC,
            10 => Self::PCI,
            11 => words_of(Self::HOST),
            _ => FLAGS,
        }
    }
}
