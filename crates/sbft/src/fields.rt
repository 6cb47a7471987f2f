// The fields of an sBFT's start and of its three parts, and where they stand.
ghost use Rattle.std.specs.Prelude.{◌≡◌};
ghost use Rattle.sbft.specs.Readings.{start_in, scsi_in, srp_in, ib_in};

use octets::read::{array_at, part, u16_at};
use table_header::header::{OEM_ID_AT, OEM_TABLE_ID_AT};

// Of a table's start: the OEM fields.
#[derive(Clone, Copy)]
pub struct Start {
    pub oem_id: [u8; 6],
    pub oem_table_id: [u8; 8],
}

impl Start {
    // Reserved: the bytes before the offsets, and those behind them.
    pub const RESERVED_AT: u8 = 24;

    pub const RESERVED: u8 = 12;

    pub const LAST_RESERVED_AT: u8 = 42;

    pub const LAST_RESERVED: u8 = 6;

    // The fields of the table whose first byte is the first.
    pub fn read(table: &[u8]) -> Start
        ensures { result ≡ start_in table.now }
    {
        Start {
            oem_id: array_at(table, OEM_ID_AT as usize),
            oem_table_id: array_at(table, OEM_TABLE_ID_AT as usize),
        }
    }
}

// The SCSI part.
#[derive(Clone, Copy)]
pub struct Scsi {
    pub lun: [u8; 8],
}

impl Scsi {
    pub const LUN_AT: u8 = 0;

    // The fields of the SCSI part whose first byte is the first.
    pub fn read(bytes: &[u8]) -> Scsi
        ensures { result ≡ scsi_in bytes.now }
    {
        Scsi {
            lun: array_at(bytes, Self::LUN_AT as usize),
        }
    }
}

// The SRP part.
#[derive(Clone, Copy)]
pub struct Srp {
    pub initiator_port: [u8; 16],
    pub target_port: [u8; 16],
}

impl Srp {
    pub const INITIATOR_PORT_AT: u8 = 0;

    pub const TARGET_PORT_AT: u8 = 16;

    // The fields of the SRP part whose first byte is the first.
    pub fn read(bytes: &[u8]) -> Srp
        ensures { result ≡ srp_in bytes.now }
    {
        Srp {
            initiator_port: array_at(bytes, Self::INITIATOR_PORT_AT as usize),
            target_port: array_at(bytes, Self::TARGET_PORT_AT as usize),
        }
    }
}

// The IB part.
#[derive(Clone, Copy)]
pub struct Ib {
    pub source_gid: [u8; 16],
    pub destination_gid: [u8; 16],
    pub service: [u8; 8],
    pub partition_key: u16,
}

impl Ib {
    pub const SOURCE_GID_AT: u8 = 0;

    pub const DESTINATION_GID_AT: u8 = 16;

    pub const SERVICE_AT: u8 = 32;

    pub const PARTITION_KEY_AT: u8 = 40;

    // Its last bytes are reserved.
    pub const RESERVED_AT: u8 = 42;

    pub const RESERVED: u8 = 6;

    // The fields of the IB part whose first byte is the first.
    pub fn read(bytes: &[u8]) -> Ib
        ensures { result ≡ ib_in bytes.now }
    {
        Ib {
            source_gid: array_at(bytes, Self::SOURCE_GID_AT as usize),
            destination_gid: array_at(bytes, Self::DESTINATION_GID_AT as usize),
            service: array_at(bytes, Self::SERVICE_AT as usize),
            partition_key: u16_at(bytes, Self::PARTITION_KEY_AT as usize),
        }
    }
}
