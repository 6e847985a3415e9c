//! The values that `clap` found, each read by its form.
ghost use Rattle.std.specs.Prelude.{◌≡◌, ◌≤◌, Some, None, IfSome, codes, map, MatchResult};
ghost use Rattle.std.specs.Prelude.{option_map, unwrap_or, []};
ghost use Rattle.std.specs.Char.{is_ascii_digit};
ghost use Rattle.std.specs.List.{list_all};
ghost use Rattle.clap.specs.Walk.{texts};
ghost use Rattle.clap.specs.Words.{all_of, first_of, found_of, one_of, rows_of};
ghost use Rattle.unwrap.specs.Numbers.{is_number_text, number_in, number_of, number_read};
ghost use Rattle.unwrap.specs.Values.{encoding_read, file_of, file_view, files_read, is_true_text};
ghost use Rattle.unwrap.specs.Values.{kind_of, named_file};
ghost use Rattle.unwrap.specs.declared.command_line.matched.Refusal.TheVariants.{Usage};

use crate::command_line::kinds::kind_of;
use crate::command_line::matched::Refusal;
use crate::command_line::options::IndexFile;
use clap::ArgMatches;
use enc_front::Encoding;
use std::alloc::Global;

// The first value of `id`.
pub(crate) fn first_given<'a>(matches: &ArgMatches<'a>, id: &str) -> Option<&'a str>
    ensures { option_map (λ s. s.now) result ≡ first_of id.now (rows_of (found_of matches.now)) }
{
    matches.get_str(id)
}

// Whether the flag was given.
pub(crate) fn flag_given(matches: &ArgMatches<'_>, id: &str) -> bool
    ensures { result ≡ is_true_text (one_of id.now (rows_of (found_of matches.now))) }
{
    matches.get_one::<bool>(id).unwrap_or(false)
}

// Whether all bytes are decimal digits.
fn has_only_digits(text: &str) -> bool
    ensures { result ≡ list_all is_ascii_digit text.now }
{
    text.as_bytes().iter().all(|digit| digit.is_ascii_digit())
}

// Whether the text is one to nine decimal digits.
fn is_number(text: &str) -> bool
    ensures { result ≡ is_number_text text.now }
{
    let length = text.len();
    0 < length && length < 10 && has_only_digits(text)
}

// The number that one to nine decimal digits write.
fn number_of(text: &str) -> Option<u32>
    ensures { result ≡ number_of text.now }
{
    if is_number(text) {
        text.parse::<u32>().ok()
    } else {
        None
    }
}

// The number from `least` to `most` that a text writes.
pub(crate) fn number_in(text: &str, least: u32, most: u32) -> Option<u32>
    ensures number { result ≡ number_in least most text.now }
    ensures least { IfSome result (λ n. least ≤ n) }
    ensures most { IfSome result (λ n. n ≤ most) }
{
    let number = number_of(text)?;
    if number < least {
        return None;
    }
    if most < number {
        return None;
    }
    Some(number)
}

// The number of an option, from `least` to `most`, or `default` where it isn't given; none where
// its text isn't such a number.
pub(crate) fn number_given(
    matches: &ArgMatches<'_>,
    id: &str,
    least: u32,
    most: u32,
    default: u32,
) -> Option<u32>
    requires { least ≤ default }
    ensures number { result ≡ number_read least most default
        (first_of id.now (rows_of (found_of matches.now))) }
    ensures least { IfSome result (λ n. least ≤ n) }
{
    match first_given(matches, id) {
        Some(text) => number_in(text, least, most),
        None => Some(default),
    }
}

// The encoding that is asked for, if one is; none where the label names no encoding.
pub(crate) fn encoding_given(matches: &ArgMatches<'_>) -> Option<Option<Encoding>>
    ensures { result
        ≡ encoding_read (first_of (codes "encoding") (rows_of (found_of matches.now))) }
{
    let Some(text) = first_given(matches, "encoding") else {
        return Some(None);
    };
    match Encoding::for_label(text.as_bytes()) {
        Some(encoding) => Some(Some(encoding)),
        None => None,
    }
}

// The file of this name, where it has one, of the kind of this word.
fn named_file<'a>(word: &str, name: &'a str) -> Option<IndexFile<'a>>
    ensures { option_map file_view result ≡ named_file name.now (kind_of word.now) }
{
    if name.is_empty() {
        return None;
    }
    let kind = kind_of(word)?;
    Some(IndexFile { kind, name })
}

// The file of `KIND=FILE`.
fn file_of<'a>(word: &'a str) -> Option<IndexFile<'a>>
    ensures { option_map file_view result ≡ file_of word.now }
{
    match word.split_once('=') {
        Some((kind, name)) => named_file(kind, name),
        None => None,
    }
}

// The files of some words.
fn files_of<'a>(alloc: Global, words: &[&'a str]) -> Result<Vec<IndexFile<'a>>, Refusal>
    ensures { MatchResult result
        (λ files. files_read (texts words.now) ≡ Some (map file_view files.items))
        (λ e. e ≡ Usage → files_read (texts words.now) ≡ None) }
{
    let mut files = Vec::new(alloc);
    for word in words {
        let Some(file) = file_of(word) else {
            return Err(Refusal::Usage);
        };
        files.push(file)?;
    }
    Ok(files)
}

// The index files that are named.
pub(crate) fn files_given<'a>(
    alloc: Global,
    matches: &ArgMatches<'a>,
) -> Result<Vec<IndexFile<'a>>, Refusal>
    ensures { MatchResult result
        (λ files. files_read (unwrap_or (all_of (codes "index")
        (rows_of (found_of matches.now))) []) ≡ Some (map file_view files.items))
        (λ e. e ≡ Usage → files_read (unwrap_or (all_of (codes "index")
        (rows_of (found_of matches.now))) []) ≡ None) }
{
    match matches.get_strs("index") {
        Some(words) => files_of(alloc, words),
        None => Ok(Vec::new(alloc)),
    }
}
