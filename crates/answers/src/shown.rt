// What an answer shows, as numbers: document 01's number and values for each case.
ghost use Rattle.std.specs.Prelude.{◌≡◌, Err, Ok};
ghost use Rattle.model.specs.declared.Answer.TheVariants.{Looked};
ghost use Rattle.model.specs.Rules.{rule_shown};
ghost use Rattle.answers.specs.Answers.{comparison_numbers, numbers_of, rule_numbers};

use model::{Answer, Refusal, Rule, SlotAnswer, Ticket, Verdict};

// The kinds of an answer. C reads a kind as the number of a field.
#[derive(Clone, Copy, Debug, PartialEq, Eq)]
pub enum Kind {
    Ticket,
    YesOrNo,
    Place,
    Done,
    Refused,
}

// The rule that decided a yes or no: its number, 1 to 4, and what it compared, of the ticket (its value, or its colour) and against it
// (VALID's value, or the colour's count). No rule is all 0. Numbers without a Rust enum, since C reads them.
#[repr(C)]
#[derive(Clone, Copy, Default)]
pub struct RuleNumbers {
    pub number: u8,
    pub of_ticket: u16,
    pub against: u16,
}

impl From<Rule> for RuleNumbers {
    ghost from_gives = { λ rule numbers. numbers ≡ rule_numbers (rule_shown rule) };

    fn from(rule: Rule) -> RuleNumbers {
        match rule {
            Rule::NotAbove(value, last) => RuleNumbers {
                number: 1,
                of_ticket: value.0,
                against: last.0,
            },
            Rule::Above(value, last) => RuleNumbers {
                number: 2,
                of_ticket: value.0,
                against: last.0,
            },
            Rule::Counted(colour, count) => RuleNumbers {
                number: 3,
                of_ticket: u16::from(colour.0),
                against: u16::from(count),
            },
            Rule::NotCounted(colour, count) => RuleNumbers {
                number: 4,
                of_ticket: u16::from(colour.0),
                against: u16::from(count),
            },
        }
    }
}

// The number of the call, the kind of its answer, yes as 1, the slot that a yes gives, a ticket, a place, and the rule of a yes or no.
// What an answer does not have is 0. A struct of numbers, not generic in ticket or place, since C reads it.
#[repr(C)]
#[derive(Clone, Copy, Default)]
pub struct Shown {
    pub number: u8,
    pub kind: u8,
    pub yes: u8,
    pub slot: u8,
    pub ticket: Ticket,
    pub place: u16,
    pub rule: RuleNumbers,
}

// What a look says: yes, with its slot, or no; and its rule.
impl From<Verdict> for Shown {
    ghost from_gives = { λ verdict shown. shown ≡ numbers_of (Ok (Looked verdict)) };

    fn from(verdict: Verdict) -> Shown {
        match verdict {
            Verdict::Yes(slot, rule) => Shown {
                kind: Kind::YesOrNo as u8,
                yes: 1,
                slot: slot.0,
                rule: RuleNumbers::from(rule),
                ..Shown::default()
            },
            Verdict::No(rule) => Shown {
                kind: Kind::YesOrNo as u8,
                rule: RuleNumbers::from(rule),
                ..Shown::default()
            },
        }
    }
}

// A refusal: its number.
impl From<Refusal> for Shown {
    ghost from_gives = { λ refusal shown. shown ≡ numbers_of (Err refusal) };

    fn from(refusal: Refusal) -> Shown {
        Shown {
            number: u8::from(refusal),
            kind: Kind::Refused as u8,
            ..Shown::default()
        }
    }
}

impl From<Result<SlotAnswer, Refusal>> for Shown {
    ghost from_gives = { λ answer shown. shown ≡ numbers_of answer };

    fn from(answer: Result<SlotAnswer, Refusal>) -> Shown {
        match answer {
            Ok(Answer::Took(ticket)) => Shown {
                kind: Kind::Ticket as u8,
                ticket,
                ..Shown::default()
            },
            Ok(Answer::Looked(verdict)) => Shown::from(verdict),
            Ok(Answer::Placed(place)) => Shown {
                kind: Kind::Place as u8,
                place,
                ..Shown::default()
            },
            Ok(Answer::Done) => Shown {
                kind: Kind::Done as u8,
                ..Shown::default()
            },
            Err(refusal) => Shown::from(refusal),
        }
    }
}

// The answer of alike: yes, no, or refused.
impl From<Result<bool, Refusal>> for Shown {
    ghost from_gives = { λ alike shown. shown ≡ comparison_numbers alike };

    fn from(alike: Result<bool, Refusal>) -> Shown {
        match alike {
            Ok(yes) => Shown {
                kind: Kind::YesOrNo as u8,
                yes: u8::from(yes),
                ..Shown::default()
            },
            Err(refusal) => Shown::from(refusal),
        }
    }
}
