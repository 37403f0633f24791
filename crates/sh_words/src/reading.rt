ghost use Rattle.std.specs.Prelude.{◌≡◌, ◌↔◌, true, false, codes, map, IfOk, Err, MatchResult};
ghost use Rattle.std.specs.Prelude.{string_bytes};
ghost use Rattle.clap.specs.Words.{first_value, found_of};
ghost use Rattle.sh_words.specs.Tables.{accepts};
ghost use Rattle.sh_words.specs.Meaning.{AreOptionsOf, generate_from, order_from};

use crate::acceptance::are_accepted;
use crate::commands::parse;
use crate::values::{decimal, numbers, order, size, traversal};
use crate::{Generate, Options, Tool, WordsRefusal};
use clap::ArgMatches;
use sh_base::{Mem, Order};
use std::alloc::Global;

/// The options that the command words give, the program's name left out.
///
/// Each word is `--flag` or `--option=value`, and of the program's table; no name is given twice;
/// `--turns` excludes `--order`; `--generate` and `--size` come together, and exclude `--turns`,
/// `--trace` and `--device`. Other words are `Usage`, and `Mem` is want of memory.
pub fn read_words(alloc: Global, tool: Tool, words: &Vec<String>) -> Result<Options, WordsRefusal>
    ensures options { IfOk result (AreOptionsOf tool (map string_bytes words.now.items)) }
    ensures usage { (result ≡ Err WordsRefusal.Usage)
        ↔ (accepts tool (map string_bytes words.now.items) ≡ false) }
{
    let words = words.as_slice();
    if !are_accepted(tool, words) {
        return Err(WordsRefusal::Usage);
    }
    match tool {
        Tool::Opt => opt_options(alloc, words),
        Tool::Run => run_options(alloc, words),
    }
}

/// The options of `shard-opt` that accepted words give.
fn opt_options(alloc: Global, words: &[String]) -> Result<Options, WordsRefusal>
    ensures { accepts Tool.Opt (map string_bytes words.now) ≡ true → MatchResult result
        (AreOptionsOf Tool.Opt (map string_bytes words.now)) (λ e. e ≡ WordsRefusal.Mem) }
{
    let Ok(matches) = parse(alloc, Tool::Opt, words) else {
        return Err(WordsRefusal::Mem);
    };
    let propagate = match matches.get_str("propagate") {
        Some(text) => traversal(text),
        None => None,
    };
    Ok(Options {
        propagate,
        partition: matches.get_flag("partition"),
        simplify: matches.get_flag("simplify"),
        halo_to_shift: matches.get_flag("halo-to-shift"),
        order: Order::Round,
        trace: false,
        device: false,
        generate: None,
    })
}

/// The options of `shard-run` that accepted words give.
fn run_options(alloc: Global, words: &[String]) -> Result<Options, WordsRefusal>
    ensures { accepts Tool.Run (map string_bytes words.now) ≡ true → MatchResult result
        (AreOptionsOf Tool.Run (map string_bytes words.now)) (λ e. e ≡ WordsRefusal.Mem) }
{
    let Ok(matches) = parse(alloc, Tool::Run, words) else {
        return Err(WordsRefusal::Mem);
    };
    let order = order_of_turns(alloc, &matches)?;
    Ok(Options {
        propagate: None,
        partition: false,
        simplify: false,
        halo_to_shift: false,
        order,
        trace: matches.get_flag("trace"),
        device: matches.get_flag("device"),
        generate: generate(&matches),
    })
}

/// The order that `--turns` or else `--order` gives.
fn order_of_turns(alloc: Global, matches: &ArgMatches<'_>) -> Result<Order, Mem>
    ensures { IfOk result (λ o. o ≡ order_from
        (first_value (found_of matches.now) (codes "turns"))
        (first_value (found_of matches.now) (codes "order"))) }
{
    if let Some(text) = matches.get_str("turns") {
        if let Some(turns) = numbers(alloc, text)? {
            return Ok(Order::Listed(turns));
        }
    }
    match matches.get_str("order") {
        Some(text) => Ok(order(text).unwrap_or(Order::Round)),
        None => Ok(Order::Round),
    }
}

/// The generated module that `--generate` and `--size` give.
fn generate(matches: &ArgMatches<'_>) -> Option<Generate>
    ensures { result ≡ generate_from
        (first_value (found_of matches.now) (codes "generate"))
        (first_value (found_of matches.now) (codes "size")) }
{
    let number = decimal(matches.get_str("generate")?)?;
    let size = size(matches.get_str("size")?)?;
    Some(Generate { number, size })
}
