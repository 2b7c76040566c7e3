//! The words of the command line.

ghost use Rattle.std.specs.Prelude.{◌≡◌, ◌∷◌, [], IfOk, IsErrOf, IsTrue, ◌↔◌};
ghost use Rattle.std.specs.List.{list_all};
ghost use Rattle.std.specs.Option.{option_map};
ghost use Rattle.ds_lex.specs.Bytes.{is_digit};
ghost use Rattle.ds_main.specs.Job.{texts, number_in, once, with_option, no_options, options_from, limits_of};
ghost use Rattle.ds_main.specs.Job.{setting_of, setting_in, options_with, setting_with, IsJob, NoJob};

use ds_lex::number_of;
use ds_map::Limits;
use thiserror::Error;

/// What the program is asked to do.
#[derive(Clone, Copy, Debug, PartialEq, Eq)]
pub enum Job {
    /// Run the module that the input spells within these limits, by the schedule of this seed, and report the run.
    Replay { seed: u64, limits: Limits },
    /// Tell that the module that the input spells is accepted, and how much it has.
    Check,
    /// Write the module that the input spells, with its notes, in canonical form.
    Instrument,
}

/// Why words ask for nothing.
#[derive(Clone, Copy, Debug, PartialEq, Eq, Error)]
pub enum ArgsFault {
    /// No job has these words.
    #[error("usage")]
    Usage,
}

/// The most decimal digits that a number may have.
const MOST_DIGITS: usize = 20;

/// The most pages that the heap may have.
const MOST_PAGES: u64 = 4096;

/// The most units that a thread may be given.
const MOST_FUEL: u64 = 2_000_000;

/// The most logs that a run may have.
const MOST_LOGS: u64 = 1_048_576;

/// The options of a run that were given.
#[derive(Clone, Copy)]
struct Options {
    seed: Option<u64>,
    pages: Option<u64>,
    fuel: Option<u64>,
    logs: Option<u64>,
}

/// What a run is asked for.
#[derive(Clone, Copy)]
struct Setting {
    seed: u64,
    limits: Limits,
}

/// Whether all bytes are decimal digits.
fn are_digits(word: &[u8]) -> bool
    ensures { result ≡ list_all is_digit word.now }
{
    word.iter().all(|byte| byte.is_ascii_digit())
}

/// The number of 1 to 20 decimal digits, where it is below 2^64.
fn number_in(word: &[u8]) -> Option<u64>
    ensures { result ≡ number_in word.now }
{
    if are_digits(word) && word.len() <= MOST_DIGITS {
        number_of(word)
    } else {
        None
    }
}

/// The number of an option, where it was not given before.
fn once(before: Option<u64>, number: Option<u64>) -> Option<u64>
    ensures { result ≡ once before number }
{
    match before {
        None => number,
        Some(_) => None,
    }
}

/// With one more option.
fn with_option(options: Options, name: &[u8], number: &[u8]) -> Option<Options>
    ensures { option_map options_with result ≡ with_option (options_with options) name.now number.now }
{
    if name == b"--seed".as_slice() {
        let seed = Some(once(options.seed, number_in(number))?);
        return Some(Options { seed, ..options });
    }
    if name == b"--pages".as_slice() {
        let pages = Some(once(options.pages, number_in(number))?);
        return Some(Options { pages, ..options });
    }
    if name == b"--fuel".as_slice() {
        let fuel = Some(once(options.fuel, number_in(number))?);
        return Some(Options { fuel, ..options });
    }
    if name == b"--logs".as_slice() {
        let logs = Some(once(options.logs, number_in(number))?);
        return Some(Options { logs, ..options });
    }
    None
}

/// The options that words give, each a name and its number.
fn options_in(words: &[String]) -> Option<Options>
    ensures { option_map options_with result ≡ options_from no_options (texts words.now) }
{
    let mut options = Options {
        seed: None,
        pages: None,
        fuel: None,
        logs: None,
    };
    let mut rest = words;
    'pairs: while let Some((name, behind)) = rest.split_first() {
        let (number, more) = behind.split_first()?;
        options = with_option(options, name.as_bytes(), number.as_bytes())?;
        rest = more;
    }
    Some(options)
}

/// The limits of a run with these options.
fn limits_of(options: Options) -> Option<Limits>
    ensures { result ≡ limits_of (options_with options) }
{
    let limits = Limits::default_limits();
    let pages = options.pages.unwrap_or(u64::from(limits.pages()));
    let fuel = options.fuel.unwrap_or(u64::from(limits.fuel()));
    let logs = options.logs.unwrap_or(u64::from(limits.logs()));
    if pages > MOST_PAGES || fuel > MOST_FUEL || logs > MOST_LOGS {
        return None;
    }
    Limits::new(pages as u32, fuel as u32, logs as u32, limits.hash())
}

/// What a run with these options is asked for.
fn setting_of(options: Options) -> Option<Setting>
    ensures { option_map setting_with result ≡ setting_of (options_with options) }
{
    let limits = limits_of(options)?;
    Some(Setting {
        seed: options.seed.unwrap_or(0),
        limits,
    })
}

/// What a run is asked for whose words are `replay` and then options.
fn setting_in(words: &[String]) -> Option<Setting>
    ensures { option_map setting_with result ≡ setting_in (texts words.now) }
{
    let (command, behind) = words.split_first()?;
    if command.as_bytes() == b"replay".as_slice() {
        setting_of(options_in(behind)?)
    } else {
        None
    }
}

/// Whether the bytes of the only word are these.
fn is_only_word(words: &[String], word: &[u8]) -> bool
    ensures { IsTrue result ↔ (texts words.now ≡ word.now ∷ []) }
{
    match words {
        [only] => only.as_bytes() == word,
        _ => false,
    }
}

/// The job that has these words, which stand behind the program's name: `check` or `instrument` alone, or `replay` and
/// then options, `--seed N` with N from 0 to 2^64 - 1, `--pages N` with N from 1 to 4,096, `--fuel N` with N from 1 to
/// 2,000,000 and `--logs N` with N from 0 to 1,048,576, each at most once, in any order. N is 1 to 20 decimal digits
/// without a sign.
///
/// # Errors
///
/// `Usage` exactly where no job has them.
pub fn read_words(words: &[String]) -> Result<Job, ArgsFault>
    ensures job { IfOk result (λ job. IsJob (texts words.now) job) }
    ensures usage { IsErrOf result ArgsFault.Usage ↔ NoJob (texts words.now) }
{
    if is_only_word(words, b"check") {
        return Ok(Job::Check);
    }
    if is_only_word(words, b"instrument") {
        return Ok(Job::Instrument);
    }
    match setting_in(words) {
        Some(setting) => Ok(Job::Replay {
            seed: setting.seed,
            limits: setting.limits,
        }),
        None => Err(ArgsFault::Usage),
    }
}
