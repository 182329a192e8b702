//! What a packet is for.
ghost use Rattle.std.specs.Prelude.{◌≡◌, ℕ, option_map};
ghost use Rattle.chaos_packet.specs.Opcode.{kind_of, opcode_name, is_controlled, is_data, is_rfc};

use std::marker::Model;

/// An operation code (AI Memo 628, on packets). A contract sees the number.
///
/// Every number is decoded. A number to which [`Opcode::name`] gives no name stands for nothing
/// that this host knows.
#[derive(Clone, Copy, Debug, PartialEq, Eq)]
pub struct Opcode(pub u8);

impl Model for Opcode {
    ghost Value = { ℕ };

    ghost view = { λ op. op.0 };

    ghost inverse = { λ n. record { 0 = n } };
}

/// The kinds of opcode that the protocol distinguishes.
#[derive(Clone, Copy, Debug, PartialEq, Eq)]
pub enum Kind {
    /// A request for a connection.
    Rfc,
    /// A connection was opened.
    Opn,
    /// A connection was closed, or refused.
    Cls,
    /// A request is to be made elsewhere.
    Fwd,
    /// The answer to a simple transaction.
    Ans,
    /// Sense status: asks for an STS.
    Sns,
    /// Status: a receipt and a window.
    Sts,
    /// A connection is not known.
    Los,
    /// A host listens for a contact name.
    Lsn,
    /// The end of a file.
    Eof,
    /// Uncontrolled data.
    Unc,
    /// Data, 8-bit and 16-bit.
    Data,
    /// None that this host knows.
    Other,
}

impl Kind {
    /// Whether such packets ask for a connection.
    pub fn is_rfc(self) -> bool
        // The answer is whether the kind is that of an RFC.
        ensures { result ≡ is_rfc self }
    {
        matches!(self, Kind::Rfc)
    }
}

impl Opcode {
    pub const RFC: Opcode = Opcode(0o1);

    pub const OPN: Opcode = Opcode(0o2);

    pub const CLS: Opcode = Opcode(0o3);

    pub const FWD: Opcode = Opcode(0o4);

    pub const ANS: Opcode = Opcode(0o5);

    pub const SNS: Opcode = Opcode(0o6);

    pub const STS: Opcode = Opcode(0o7);

    pub const LOS: Opcode = Opcode(0o11);

    pub const LSN: Opcode = Opcode(0o12);

    pub const EOF: Opcode = Opcode(0o14);

    pub const UNC: Opcode = Opcode(0o15);
    /// The usual opcode of 8-bit data.
    pub const DATA: Opcode = Opcode(0o200);

    /// The kind of packet that the opcode stands for.
    pub fn kind(self) -> Kind
        // The protocol gives the opcode this kind, or the kind is `Other`.
        ensures { result ≡ kind_of self }
    {
        match self.0 {
            0o1 => Kind::Rfc,
            0o2 => Kind::Opn,
            0o3 => Kind::Cls,
            0o4 => Kind::Fwd,
            0o5 => Kind::Ans,
            0o6 => Kind::Sns,
            0o7 => Kind::Sts,
            0o11 => Kind::Los,
            0o12 => Kind::Lsn,
            0o14 => Kind::Eof,
            0o15 => Kind::Unc,
            0o200..=0o377 => Kind::Data,
            _ => Kind::Other,
        }
    }

    /// The memo's name, or `DAT` for 8-bit data and `DWD` for 16-bit data.
    pub fn name(self) -> Option<&'static str>
        // Reports show this name of the opcode, where the opcode has one.
        ensures { option_map (λ s. s.now) result ≡ opcode_name self }
    {
        let name = match self.kind() {
            Kind::Rfc => "RFC",
            Kind::Opn => "OPN",
            Kind::Cls => "CLS",
            Kind::Fwd => "FWD",
            Kind::Ans => "ANS",
            Kind::Sns => "SNS",
            Kind::Sts => "STS",
            Kind::Los => "LOS",
            Kind::Lsn => "LSN",
            Kind::Eof => "EOF",
            Kind::Unc => "UNC",
            Kind::Data if self.0 < 0o300 => "DAT",
            Kind::Data => "DWD",
            Kind::Other => return None,
        };
        Some(name)
    }

    /// Whether such packets are numbered, delivered in order, and sent again until they are
    /// receipted.
    pub fn is_controlled(self) -> bool
        // The controlled packets are RFC, OPN, EOF and data.
        ensures { result ≡ is_controlled self }
    {
        matches!(self.0, 0o1 | 0o2 | 0o14) || self.is_data()
    }

    /// Whether such packets carry the user's data, 8-bit or 16-bit.
    pub fn is_data(self) -> bool
        // The data opcodes are those from octal 200 on.
        ensures { result ≡ is_data self }
    {
        self.0 >= 0o200
    }
}
