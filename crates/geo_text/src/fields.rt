// The fields of a record.
ghost use Rattle.std.specs.Prelude.{◌≡◌, [], reverse, slice_index_or};
ghost use Rattle.geo_text.specs.Records.{plain_fields, without_front_blanks as dropped_front};

use csv::ByteRecord;

// Field `i` without the blanks at its ends. A place past the last field has an empty one.
#[tactic(auto, using(crate::proofs::FieldAt::field_or_empty))]
pub fn field(row: &ByteRecord, i: usize) -> &[u8]
    ensures { result.now ≡ slice_index_or (plain_fields row.now) i [] }
{
    match row.get(i) {
        Some(field) => without_end_blanks(without_front_blanks(field)),
        None => &[],
    }
}

fn without_front_blanks(field: &[u8]) -> &[u8]
    ensures { result.now ≡ dropped_front field.now }
{
    let mut rest = field;
    while let [b' ' | b'\t', tail @ ..] = rest {
        rest = tail;
    }
    rest
}

fn without_end_blanks(field: &[u8]) -> &[u8]
    ensures { result.now ≡ reverse (dropped_front (reverse field.now)) }
{
    let mut rest = field;
    while let [head @ .., b' ' | b'\t'] = rest {
        rest = head;
    }
    rest
}
