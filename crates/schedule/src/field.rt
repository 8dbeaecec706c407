// A field of a line: one space, and a number of 1 to 4 digits with no leading zero except 0 itself.
ghost use Rattle.std.specs.Prelude.{◌≡◌, ◌≤◌, length};
ghost use Rattle.model.specs.Schedule.{digits, is_digit, number, starts_number};
ghost use Rattle.std.specs.Bool.{OnTrue};
ghost use Rattle.std.specs.List.{take_while};
ghost use Rattle.schedule.specs.Field.{field_of, number_read};
ghost use Rattle.schedule.specs.Rest.{Reads};

// How many digits a text begins with.
fn count_digits(text: &[u8]) -> usize
    ensures { result ≡ length (take_while is_digit text.now) }
{
    text.iter().take_while(|b| b.is_ascii_digit()).count()
}

// Whether digits are a number of the grammar: 1 to 4 of them, the first a zero only where it stands alone.
#[tactic(auto, unfolding(model::specs::Schedule::starts_number))]
fn is_number(numeral: &[u8]) -> bool
    requires all_digits { digits numeral.now ≡ length numeral.now }
    ensures value { result ≡ starts_number numeral.now }
    ensures short { OnTrue result (length numeral.now ≤ 4) }
{
    match numeral {
        [] | [b'0', _, ..] => false,
        _ => numeral.len() <= 4,
    }
}

// The number that at most 4 digits say.
fn number_of(numeral: &[u8]) -> u16
    requires short { length numeral.now ≤ 4 }
    requires all_digits { digits numeral.now ≡ length numeral.now }
    ensures { result ≡ number numeral.now }
{
    numeral
        .iter()
        .fold(0, |n, digit| n * 10 + u16::from(*digit - b'0'))
}

// The number that a text begins with, and the rest of the text.
#[tactic(auto, using(crate::proofs::FieldLaws::digits_alone, crate::proofs::FieldLaws::number_alone, crate::proofs::FieldLaws::starts_alone, crate::proofs::FieldLaws::length_alone, crate::proofs::FieldLaws::digits_counted, crate::proofs::FieldLaws::digits_within, crate::proofs::FieldLaws::part_from), unfolding(crate::specs::Field::number_read))]
fn read_number(text: &[u8]) -> Option<(u16, &[u8])>
    ensures { Reads (number_read text.now) text.entry result }
{
    let size = count_digits(text);
    let numeral = &text[..size];
    if !is_number(numeral) {
        return None;
    }
    Some((number_of(numeral), &text[size..]))
}

// The number of the field that a text begins with, and the rest of the text.
#[tactic(auto, unfolding(crate::specs::Field::field_of))]
pub fn read_field(text: &[u8]) -> Option<(u16, &[u8])>
    ensures { Reads (field_of text.now) text.entry result }
{
    let [b' ', text @ ..] = text else {
        return None;
    };
    read_number(text)
}
