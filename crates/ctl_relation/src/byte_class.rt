//! Classes of bytes, told by a table.

ghost use Rattle.std.specs.Prelude.{◌≡◌};
ghost use Rattle.ctl_relation.specs.FieldBytes.{is_field_name_byte};
ghost use Rattle.ctl_relation.specs.Inside.ByteClass.{class_bit, class_has};

/// A class of bytes.
#[derive(Clone, Copy)]
pub(crate) enum ByteClass {
    /// What may stand between the tokens of a relation field.
    Whitespace,
    /// The bytes of names: letters, digits and `+ - . _`.
    Name,
    /// The bytes of qualifiers: letters, digits and hyphens.
    Qualifier,
    /// The bytes that the version of a relation goes on over.
    VersionWord,
    /// The bytes of upstream versions: letters, digits and `+ . ~ - :`.
    Upstream,
    /// The bytes of revisions: letters, digits and `+ . ~`.
    Revision,
    /// The bytes of names of fields: the printable bytes of ASCII, space and colon aside.
    FieldName,
}

// The classes of each byte, by their bits.
const CLASSES: [u8; 256] = [
    // controls, with tab and newline
    8, 8, 8, 8, 8, 8, 8, 8, 8, 1, 1, 8, 8, 8, 8, 8,
    // controls
    8, 8, 8, 8, 8, 8, 8, 8, 8, 8, 8, 8, 8, 8, 8, 8,
    // space ! " # $ % & ' ( ) * + , - . /
    1, 72, 72, 72, 72, 72, 72, 72, 72, 64, 72, 122, 72, 94, 122, 72,
    // 0 to 9 : ; < = > ?
    126, 126, 126, 126, 126, 126, 126, 126, 126, 126, 24, 72, 72, 72, 72, 72,
    // @ A to O
    72, 126, 126, 126, 126, 126, 126, 126, 126, 126, 126, 126, 126, 126, 126, 126,
    // P to Z [ \ ] ^ _
    126, 126, 126, 126, 126, 126, 126, 126, 126, 126, 126, 72, 72, 72, 72, 74,
    // ` a to o
    72, 126, 126, 126, 126, 126, 126, 126, 126, 126, 126, 126, 126, 126, 126, 126,
    // p to z { | } ~
    126, 126, 126, 126, 126, 126, 126, 126, 126, 126, 126, 72, 72, 72, 120, 8,
    // above 127
    8, 8, 8, 8, 8, 8, 8, 8, 8, 8, 8, 8, 8, 8, 8, 8, 8, 8, 8, 8, 8, 8, 8, 8, 8, 8, 8, 8, 8, 8, 8, 8,
    8, 8, 8, 8, 8, 8, 8, 8, 8, 8, 8, 8, 8, 8, 8, 8, 8, 8, 8, 8, 8, 8, 8, 8, 8, 8, 8, 8, 8, 8, 8, 8,
    8, 8, 8, 8, 8, 8, 8, 8, 8, 8, 8, 8, 8, 8, 8, 8, 8, 8, 8, 8, 8, 8, 8, 8, 8, 8, 8, 8, 8, 8, 8, 8,
    8, 8, 8, 8, 8, 8, 8, 8, 8, 8, 8, 8, 8, 8, 8, 8, 8, 8, 8, 8, 8, 8, 8, 8, 8, 8, 8, 8, 8, 8, 8, 8,
];

impl ByteClass {
    fn bit(self) -> u8
        ensures { result ≡ class_bit self }
    {
        match self {
            ByteClass::Whitespace => 1,
            ByteClass::Name => 2,
            ByteClass::Qualifier => 4,
            ByteClass::VersionWord => 8,
            ByteClass::Upstream => 16,
            ByteClass::Revision => 32,
            ByteClass::FieldName => 64,
        }
    }

    /// Whether a byte is of the class.
    #[inline]
    #[tactic(auto, using(crate::proofs::ByteClasses::class_is))]
    pub(crate) fn has(self, byte: u8) -> bool
        ensures { result ≡ class_has self byte }
    {
        CLASSES[byte as usize] & self.bit() != 0
    }
}

/// Whether a byte may stand in the name of a field: it is a printable byte of ASCII, and no space or colon (Debian Policy 5.1).
#[inline]
pub fn is_field_name_byte(byte: u8) -> bool
    ensures { result ≡ is_field_name_byte byte }
{
    ByteClass::FieldName.has(byte)
}
