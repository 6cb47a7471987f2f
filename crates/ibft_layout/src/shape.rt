// The shapes of the layout's data: of a kind of structure, of a field, of a string.
ghost use Rattle.std.specs.Prelude.{◌≡◌};
ghost use Rattle.ibft_layout.specs.Shapes.{shape_start};

// A kind of structure: what it starts with, the mask of its flag bits that are not named, whether it has a CHAP type.
#[derive(Clone, Copy)]
pub struct Shape {
    pub id: u8,
    pub version: u8,
    pub length: u16,
    pub reserved: u8,
    pub chap: bool,
}

impl Shape {
    // What a structure of the kind starts with, up to its flags: ID, Version, Length, Index.
    pub fn start(self, index: u8) -> [u8; 5]
        ensures { result ≡ shape_start self index }
    {
        let [low, high] = self.length.to_le_bytes();
        [self.id, self.version, low, high, index]
    }
}

// The longest an iSCSI name may be (RFC 3720), and any other string.
pub(crate) const LONGEST_NAME: u16 = 223;

pub(crate) const LONGEST: u16 = 255;

// A field of a structure: where it stands, how many bytes it has.
#[derive(Clone, Copy)]
pub struct FieldShape {
    pub at: u16,
    pub width: u8,
}

// Where the Index and the flags stand in every structure, and the flags as a field.
pub const INDEX_AT: u8 = 4;

pub const FLAGS_AT: u8 = 5;

pub(crate) const FLAGS: FieldShape = FieldShape {
    at: FLAGS_AT as u16,
    width: 1,
};

// A string of a structure: where its length stands (its offset stands 2 further), how long it may be, whether it is a
// host name, whether it is a secret.
#[derive(Clone, Copy)]
pub struct StringShape {
    pub at: u16,
    pub longest: u16,
    pub host: bool,
    pub secret: bool,
}

// The two words of a string, its length and its offset, as one field.
pub(crate) fn words_of(string: StringShape) -> FieldShape
    ensures { result ≡ record { at = string.at; width = 4 } }
{
    FieldShape {
        at: string.at,
        width: 4,
    }
}
