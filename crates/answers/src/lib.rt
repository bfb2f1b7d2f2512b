// The C answers, and 01's numbers in them: a struct for each call, made of the answer of the crate that does the work.
#![tactic(auto)]

ghost use Rattle.std.specs.Prelude.{◌≡◌};
ghost use Rattle.answers.specs.Structs.{of_read, of_words, of_check, of_list_run, of_watch};

use documents::Refusal;
use list_run::Ended;

// 01's number where nothing is refused.
// Kept (point 1): C's answers are numbers.
pub const DONE: u32 = 0;

// The C header calls it reed_read_answer.
#[repr(C)]
#[derive(Clone, Copy)]
pub struct ReedReadAnswer {
    pub number: u32,
    pub left: u32,
    pub right: u32,
    pub subject: u32,
}

// The C header calls it reed_answer: of the calls that write one table.
#[repr(C)]
#[derive(Clone, Copy)]
pub struct ReedAnswer {
    pub number: u32,
    pub words: u32,
}

// The C header calls it reed_list_answer.
#[repr(C)]
#[derive(Clone, Copy)]
pub struct ReedListAnswer {
    pub number: u32,
    pub words: u32,
    pub rewrites: u32,
    pub normal: u32,
}

// The C header calls it reed_watch_answer.
#[repr(C)]
#[derive(Clone, Copy)]
pub struct ReedWatchAnswer {
    pub number: u32,
    pub current: u32,
    pub entries: u32,
    pub finished: u32,
    pub node: u32,
}

impl From<Result<reader::Counts, Refusal>> for ReedReadAnswer {
    ghost from_gives = { λ answer given. given ≡ of_read answer };

    fn from(answer: Result<reader::Counts, Refusal>) -> Self {
        match answer {
            Ok(counts) => ReedReadAnswer {
                number: DONE,
                left: counts.left,
                right: counts.right,
                subject: counts.subject,
            },
            Err(why_not_read) => ReedReadAnswer {
                number: u32::from(why_not_read),
                left: 0,
                right: 0,
                subject: 0,
            },
        }
    }
}

// Of compile and of run: the words that they wrote.
impl From<Result<u32, Refusal>> for ReedAnswer {
    ghost from_gives = { λ answer given. given ≡ of_words answer };

    fn from(answer: Result<u32, Refusal>) -> Self {
        match answer {
            Ok(written) => ReedAnswer {
                number: DONE,
                words: written,
            },
            Err(why) => ReedAnswer {
                number: u32::from(why),
                words: 0,
            },
        }
    }
}

// Kept (point 4): a function, for neither a `Result` nor a number is a type of ours that could have a `From`.
pub fn of_check(answer: Result<(), Refusal>) -> u32
    ensures { result ≡ of_check answer }
{
    let Err(why_not_passed) = answer else {
        return DONE;
    };
    u32::from(why_not_passed)
}

impl From<Result<Ended, Refusal>> for ReedListAnswer {
    ghost from_gives = { λ answer given. given ≡ of_list_run answer };

    fn from(answer: Result<Ended, Refusal>) -> Self {
        match answer {
            Ok(ended) => ReedListAnswer {
                number: DONE,
                words: ended.words,
                rewrites: ended.rewrites,
                normal: u32::from(ended.normal),
            },
            Err(why_no_plan) => ReedListAnswer {
                number: u32::from(why_no_plan),
                words: 0,
                rewrites: 0,
                normal: 0,
            },
        }
    }
}

impl From<Result<watcher::Counts, Refusal>> for ReedWatchAnswer {
    ghost from_gives = { λ answer given. given ≡ of_watch answer };

    fn from(answer: Result<watcher::Counts, Refusal>) -> Self {
        match answer {
            Ok(counts) => ReedWatchAnswer {
                number: DONE,
                current: counts.current,
                entries: counts.entries,
                finished: counts.finished,
                node: counts.node,
            },
            Err(why_not_watched) => ReedWatchAnswer {
                number: u32::from(why_not_watched),
                current: 0,
                entries: 0,
                finished: 0,
                node: 0,
            },
        }
    }
}
