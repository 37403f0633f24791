ghost use Rattle.std.specs.Prelude.{◌≡◌, map, option_map, string_bytes};
ghost use Rattle.std.specs.List.{list_all, list_any};
ghost use Rattle.sh_words.specs.Words.{has_name, name_of, is_given, names_once, value_of};
ghost use Rattle.sh_words.specs.Tables.{accepts, agree, fits, form_named, has_form, is_word};

use crate::Tool;
use crate::values::{are_numbers, decimal, order, size, traversal};

/// What follows a name.
#[derive(Clone, Copy, Debug, PartialEq, Eq)]
pub(crate) enum Form {
    /// Nothing.
    Flag,
    /// The name of a traversal.
    Traversal,
    /// The name of an order.
    Order,
    /// Decimals, with a comma between two.
    Turns,
    /// A decimal.
    Decimal,
    /// A decimal from 1 to 256.
    Size,
}

/// Whether the program takes these words.
pub(crate) fn are_accepted(tool: Tool, words: &[String]) -> bool
    ensures { result ≡ accepts tool (map string_bytes words.now) }
{
    are_of_the_table(tool, words) && have_names_once(words) && do_agree(words)
}

/// Whether each word is of the program's table.
fn are_of_the_table(tool: Tool, words: &[String]) -> bool
    ensures { result ≡ list_all (is_word tool) (map string_bytes words.now) }
{
    are_words(tool, words)
}

/// The same, of the words as strings.
fn are_words(tool: Tool, words: &[String]) -> bool
    ensures { result ≡ list_all (λ w. is_word tool (string_bytes w)) words.now }
{
    words.iter().all(|word| is_word_of(tool, word.as_str()))
}

/// Whether no name is given twice. Of words of a table, one repeats a name among the first few, so
/// the time is linear.
fn have_names_once(words: &[String]) -> bool
    ensures { result ≡ names_once (map string_bytes words.now) }
{
    for (i, word) in words.iter().enumerate() {
        if is_in(parts(word.as_str()).0, &words[i + 1..]) {
            return false;
        }
    }
    true
}

/// Whether no word excludes another.
fn do_agree(words: &[String]) -> bool
    ensures { result ≡ agree (map string_bytes words.now) }
{
    let turns = is_in("--turns", words);
    let order = is_in("--order", words);
    let trace = is_in("--trace", words);
    let device = is_in("--device", words);
    let generate = is_in("--generate", words);
    let size = is_in("--size", words);
    !(turns && order) && generate == size && !(generate && (turns || trace || device))
}

/// Whether a word of this name is among the words.
fn is_in(name: &str, words: &[String]) -> bool
    ensures { result ≡ is_given name.now (map string_bytes words.now) }
{
    is_among(name, words)
}

/// The same, of the words as strings.
fn is_among(name: &str, words: &[String]) -> bool
    ensures { result ≡ list_any (λ w. has_name name.now (string_bytes w)) words.now }
{
    words.iter().any(|word| parts(word.as_str()).0 == name)
}

/// Whether the word is of the program's table.
fn is_word_of(tool: Tool, word: &str) -> bool
    ensures { result ≡ is_word tool word.now }
{
    let (name, value) = parts(word);
    match form_of(tool, name) {
        Some(form) => is_fit(form, value),
        None => false,
    }
}

/// What stands before the first `=`, and what stands after it.
fn parts(word: &str) -> (&str, Option<&str>)
    ensures name { result.0.now ≡ name_of word.now }
    ensures value { option_map (λ s. s.now) result.1 ≡ value_of word.now }
{
    match word.split_once('=') {
        Some((name, value)) => (name, Some(value)),
        None => (word, None),
    }
}

/// What follows the name in the program's table.
fn form_of(tool: Tool, name: &str) -> Option<Form>
    ensures { result ≡ form_named tool name.now }
{
    match tool {
        Tool::Opt => opt_form(name),
        Tool::Run => run_form(name),
    }
}

/// The table of `shard-opt`.
fn opt_form(name: &str) -> Option<Form>
    ensures { result ≡ form_named Tool.Opt name.now }
{
    match name {
        "--propagate" => Some(Form::Traversal),
        "--partition" | "--simplify" | "--halo-to-shift" => Some(Form::Flag),
        _ => None,
    }
}

/// The table of `shard-run`.
fn run_form(name: &str) -> Option<Form>
    ensures { result ≡ form_named Tool.Run name.now }
{
    match name {
        "--order" => Some(Form::Order),
        "--turns" => Some(Form::Turns),
        "--trace" | "--device" => Some(Form::Flag),
        "--generate" => Some(Form::Decimal),
        "--size" => Some(Form::Size),
        _ => None,
    }
}

/// Whether a name of this form may have this value, or none.
fn is_fit(form: Form, value: Option<&str>) -> bool
    ensures { result ≡ fits form (option_map (λ s. s.now) value.entry) }
{
    match value {
        Some(text) => is_of(form, text),
        None => form == Form::Flag,
    }
}

/// Whether the text is a value of this form.
fn is_of(form: Form, text: &str) -> bool
    ensures { result ≡ has_form form text.now }
{
    match form {
        Form::Flag => false,
        Form::Traversal => traversal(text).is_some(),
        Form::Order => order(text).is_some(),
        Form::Turns => are_numbers(text),
        Form::Decimal => decimal(text).is_some(),
        Form::Size => size(text).is_some(),
    }
}
