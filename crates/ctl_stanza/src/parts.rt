//! A text read in parts.

ghost use Rattle.ctl_stanza.specs.InParts.{ReadsInParts};

/// A text that is cut behind an empty line reads as its two parts, or to the fault of the first part that has one.
#[tactic(auto, using(crate::proofs::PartLemmas::in_parts))]
pub fn texts_read_in_parts()
    ensures { ReadsInParts }
{}
