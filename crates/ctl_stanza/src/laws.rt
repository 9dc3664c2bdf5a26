//! What the definition of reading means, as laws.

ghost use Rattle.std.specs.Prelude.{ℕ, ◌≤◌, List, length};
ghost use Rattle.ctl_stanza.specs.declared.list_kind.ListKind.{ListKind};
ghost use Rattle.ctl_stanza.specs.RecordLaws.{ReadsRecordsOrTells, AreRecordsUpTo};
ghost use Rattle.ctl_stanza.specs.Records.{records_before_fault};
ghost use Rattle.ctl_stanza.specs.Content.{Content};
ghost use Rattle.ctl_stanza.specs.FieldLines.{FieldLinesAreTaken, FieldLinesAreKnown};
ghost use Rattle.ctl_stanza.specs.Lines.{lines_of};
ghost use Rattle.ctl_stanza.specs.Laws.{BodiesAreCounted, FieldsRise, IsFaultless};
ghost use Rattle.ctl_stanza.specs.Laws.{ReadsOrTells, KeepsLines, ReadsStanzas, StanzasAreOneList};
ghost use Rattle.ctl_stanza.specs.Sound.{IsWhole, IsSound, PairsFit, MetPairsFit, OwnMetPairsFit};

use ctl_relation::{fields_bound_atoms, met_pairs_are_bounded, reading_is_the_grammar};

/// A text that is read to stanzas has no fault. Of a text that isn't, a fault is told that it has: no line
/// before it has a fault, and on its line no fault has a lower number.
pub fn told_fault_is_least()
    ensures { (kind : ListKind) (n : ℕ) (text : List ℕ) → ReadsOrTells kind n text }
{}

/// The texts of the stanzas that a text is read to, joined, are the lines of the text that aren't blank, in
/// order, each with a newline.
pub fn stanzas_keep_lines()
    ensures { (kind : ListKind) (n : ℕ) (text : List ℕ) → KeepsLines kind n text }
{}

/// A field line is a name, a colon, blanks, a value and blanks: each such line is taken for a field line with that name
/// and that value, and no other line is.
pub fn field_lines_have_names_and_values()
    ensures taken { FieldLinesAreTaken }
    ensures known { FieldLinesAreKnown }
{}

/// The fields of a stanza stand in the order of the lines at which they begin, and these are lines of the stanza.
pub fn fields_stand_in_order()
    ensures { (stanza : List (List ℕ)) → FieldsRise stanza }
{}

/// The bytes that are counted for the limit of a body are those of the body: its value, and the lines that continue it,
/// each behind a newline.
pub fn bodies_are_counted()
    ensures { BodiesAreCounted }
{}

/// The stanzas that a text is read to are all the maximal runs of its lines that aren't blank, each once and in order,
/// and are of the list's kind.
pub fn stanzas_are_runs()
    ensures { (kind : ListKind) (n : ℕ) (text : List ℕ) → ReadsStanzas kind n text }
{}

/// A text of preferences that is read to records has no faulty line, comments aside. Of a text that isn't, the fault is
/// told of a line that has it: no line before it has a fault, and on its line no fault has a lower number.
pub fn told_record_fault_is_least()
    ensures { (n : ℕ) (text : List ℕ) → ReadsRecordsOrTells n text }
{}

/// Lines have one list of stanzas: all their maximal runs of lines that aren't blank, each once and in order.
pub fn lines_have_one_list_of_stanzas()
    ensures { StanzasAreOneList }
{}

/// The records that a text of preferences is read to are all the maximal runs of its lines that aren't blank, comments
/// left out, each once and in order; where a fault is told they are all those before its line.
pub fn records_are_runs()
    ensures { (n : ℕ) (text : List ℕ) → AreRecordsUpTo n text (records_before_fault n text).0 (records_before_fault n text).1 }
{}

/// A stanza without a fault has a name, and where it is live a version. Each group of its relation fields has an atom, an
/// entry of Provides has one alone. The groups and the atoms of a field, the atoms of all fields together, and what the
/// stanza offers, are less than 2^32.
pub fn whole_stanzas_are_sound()
    ensures { (content : Content) → IsWhole content → IsSound content }
{
    reading_is_the_grammar();
    fields_bound_atoms();
}

/// Pairs of an atom and an offer of less than 2^32 stanzas are less than 2^128.
pub fn pairs_of_stanzas_fit()
    ensures { PairsFit }
{
    whole_stanzas_are_sound();
}

/// Of less than 2^64 atoms and what less than 2^32 stanzas offer, less than 2^128 pairs meet. The atoms in the relation fields
/// of so many stanzas are less than 2^64.
pub fn met_pairs_fit()
    ensures few { MetPairsFit }
    ensures own { OwnMetPairsFit }
{
    whole_stanzas_are_sound();
    met_pairs_are_bounded();
}

/// A stanza that is whole has no faulty line and no other fault, line by line and field by field.
pub fn whole_stanzas_are_faultless()
    ensures { (content : Content) → IsWhole content → IsFaultless content.kind (lines_of content.text) }
{}

/// A text has no more lines than bytes.
pub fn lines_take_bytes()
    ensures { (text : List ℕ) → length (lines_of text) ≤ length text }
{}
