// The commands that words are.
ghost use Rattle.std.specs.Prelude.{◌≡◌, IfSome, option_map};
ghost use Rattle.std.specs.Str.{bytes_eq};
ghost use Rattle.tss_command.specs.Words.{words_of, command_of, workload_command, command_meant, number_of};
ghost use Rattle.tss_command.specs.Sizes.{HasSize};

use itoa::Buffer;
use tss_self::Form;

/// What the program is asked for.
#[derive(Clone, Copy, Debug, PartialEq, Eq)]
pub enum Command<'a> {
    /// `run IMAGE MACHINE seed N`: a program, and the seed from which its events are drawn.
    RunSeeded {
        image: &'a str,
        machine: &'a str,
        seed: u64,
    },
    /// `run IMAGE MACHINE seed N log FILE`: the same, and the file to which its events are appended.
    RunLogged {
        image: &'a str,
        machine: &'a str,
        seed: u64,
        log: &'a str,
    },
    /// `run IMAGE MACHINE given FILE`: a program, and the file that gives its events.
    RunGiven {
        image: &'a str,
        machine: &'a str,
        schedule: &'a str,
    },
    /// `state IMAGE MACHINE given FILE`: a program, and the file that gives its first events.
    StateGiven {
        image: &'a str,
        machine: &'a str,
        schedule: &'a str,
    },
    /// `self N` or `self N mul`: the number of blocks a side of the workload, from 1 to 40, and its form.
    Workload {
        n: u32,
        form: Form,
    },
    /// `inorder IMAGE MACHINE`: the image and the machine that it names.
    InOrder {
        image: &'a str,
        machine: &'a str,
    },
    /// `migrate FILE NEW`: a log, and the file to which it is appended in the present format.
    Migrate {
        log: &'a str,
        new_log: &'a str,
    },
}

/// The number that a word writes, below 2^64. None where it has other bytes than digits, or a leading zero.
fn number(word: &str) -> Option<u64>
    ensures { result ≡ number_of word.now }
{
    match word.parse::<u64>() {
        Ok(n) => {
            let mut digits = Buffer::new();
            if digits.format(n) == word {
                Some(n)
            } else {
                None
            }
        }
        Err(_) => None,
    }
}

/// The workload with so many blocks a side.
fn workload_command(form: Form, word: &str) -> Option<Command<'static>>
    ensures { option_map command_meant result ≡ workload_command form word.now }
{
    let n = number(word)?;
    if n < 1 || 40 < n {
        None
    } else {
        Some(Command::Workload { n: n as u32, form })
    }
}

/// Whether a word is this one.
fn is(word: &str, text: &str) -> bool
    ensures { result ≡ bytes_eq word.now text.now }
{
    word == text
}

/// The command that words are. None where they are no command.
pub fn parse(words: &[String]) -> Option<Command<'_>>
    ensures exact { option_map command_meant result ≡ command_of (words_of words.now) }
    ensures sizes { IfSome result HasSize }
{
    match words {
        [form, n] => {
            if is(form, "self") {
                workload_command(Form::Shifts, n)
            } else {
                None
            }
        }
        [form, first, second] => {
            if is(form, "self") && is(second, "mul") {
                workload_command(Form::Products, first)
            } else if is(form, "inorder") {
                Some(Command::InOrder {
                    image: first,
                    machine: second,
                })
            } else if is(form, "migrate") {
                Some(Command::Migrate {
                    log: first,
                    new_log: second,
                })
            } else {
                None
            }
        }
        [form, image, machine, how, what] => {
            if is(form, "run") && is(how, "seed") {
                Some(Command::RunSeeded {
                    image,
                    machine,
                    seed: number(what)?,
                })
            } else if is(form, "run") && is(how, "given") {
                Some(Command::RunGiven {
                    image,
                    machine,
                    schedule: what,
                })
            } else if is(form, "state") && is(how, "given") {
                Some(Command::StateGiven {
                    image,
                    machine,
                    schedule: what,
                })
            } else {
                None
            }
        }
        [form, image, machine, how, seed, and, log] => {
            if is(form, "run") && is(how, "seed") && is(and, "log") {
                Some(Command::RunLogged {
                    image,
                    machine,
                    seed: number(seed)?,
                    log,
                })
            } else {
                None
            }
        }
        _ => None,
    }
}
