//! Options: words in twos, a name and its value.
ghost use Rattle.std.specs.Prelude.{◌≡◌, ◌≤◌, IfSome, map, option_map, string_bytes};
ghost use Rattle.std.specs.List.{list_any};
ghost use Rattle.std.specs.Str.{bytes_eq};
ghost use Rattle.bfdd.specs.Options.{are_options, number_option, timers_of, form_of, value_of};

use crate::words::job::Form;
use crate::words::number::number;

/// Whether the name is one of these.
fn is_among(names: &[&str], name: &str) -> bool
    ensures { result ≡ list_any (λ known. bytes_eq known name.now) (map (λ known. known.now) names.now) }
{
    for known in names {
        if *known == name {
            return true;
        }
    }
    false
}

/// Whether the words are options of these names.
pub(crate) fn are_options(names: &[&str], words: &[String]) -> bool
    ensures { result ≡ are_options (map (λ name. name.now) names.now) (map (λ word. string_bytes word) words.now) }
{
    let mut rest = words;
    while let [name, _, more @ ..] = rest {
        if !is_among(names, name) {
            return false;
        }
        rest = more;
    }
    rest.is_empty()
}

/// The value of the option of this name, where it is given; nothing where it is given more than once.
fn value<'a>(name: &str, options: &'a [String]) -> Option<Option<&'a str>>
    ensures { option_map (λ value. option_map (λ word. word.now) value) result
        ≡ value_of name.now (map (λ word. string_bytes word) options.entry.now) }
{
    let mut found = None;
    let mut rest = options;
    while let [first, second, more @ ..] = rest {
        if first.as_str() == name {
            if found.is_some() {
                return None;
            }
            found = Some(second.as_str());
        }
        rest = more;
    }
    Some(found)
}

/// The number of the option of this name, from `least` to `most`, and `default` where it isn't given; nothing where its value
/// is no such number, or it is given more than once.
pub(crate) fn number_option(
    name: &str,
    least: u32,
    most: u32,
    default: u32,
    options: &[String],
) -> Option<u32>
    requires { (least ≤ default) × (default ≤ most) }
    ensures value { result ≡ number_option name.now least most default (map (λ word. string_bytes word) options.now) }
    ensures range { IfSome result (λ n. (least ≤ n) × (n ≤ most)) }
{
    match value(name, options)? {
        None => Some(default),
        Some(word) => number(word, least, most),
    }
}

/// The form of timers that a word names.
fn form(word: &str) -> Option<Form>
    ensures { result ≡ form_of word.now }
{
    match word {
        "hashed" => Some(Form::Hashed),
        "levels" => Some(Form::Levels),
        _ => None,
    }
}

/// The form of timers that the option `--timers` names, hashed where it isn't given.
pub(crate) fn timers(options: &[String]) -> Option<Form>
    ensures { result ≡ timers_of (map (λ word. string_bytes word) options.now) }
{
    match value("--timers", options)? {
        None => Some(Form::Hashed),
        Some(word) => form(word),
    }
}
