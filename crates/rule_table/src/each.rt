// The rules of a table one by one: each goes as far as its word count says.
ghost use Rattle.std.specs.Prelude.{◌≡◌};
ghost use Rattle.std.specs.Iterator.{at_most};
ghost use Rattle.rule_table.specs.Each.{Stands, starts, rule_gives, words_left};

use documents::Refusal;

// The table, and where the next rule's word count stands.
#[derive(Clone, Copy)]
pub struct EachRule<'a> {
    rules: &'a [u32],
    at: usize,
}

impl<'a> EachRule<'a> {
    pub fn of(rules: &'a [u32]) -> Self
        ensures { starts rules.now result }
    {
        EachRule { rules, at: 0 }
    }
}

// Where a rule's word count stands; or the refusal of one that the end cuts short, which is the last.
impl<'a> Iterator for EachRule<'a> {
    type Item = Result<usize, Refusal>;

    ghost can_next = { Stands };

    ghost next_gives = { rule_gives };

    ghost remaining = { λ each. at_most (words_left each) };

    fn next(&mut self) -> Option<Result<usize, Refusal>> {
        let start = self.at;
        let rules = self.rules;
        if start == rules.len() {
            return None;
        }
        let words = rules[start] as usize;
        if rules.len() - start - 1 < words {
            self.at = rules.len();
            return Some(Err(Refusal::DoesNotPass));
        }
        self.at = start + 1 + words;
        Some(Ok(start))
    }
}
