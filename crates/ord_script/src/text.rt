//! Writing the lines of the answer to a script.
ghost use Rattle.std.specs.Prelude.{◌≡◌, ◌++◌, [], ◌∷◌, IfOk, string_bytes, codes, flat_map, decimal};
ghost use Rattle.ord_script.specs.Text.{Adds, reply_lines, reply_text, fault_line, insertion_text, optional_pointer_text, similar_text, order_text, item_word, item_text, taken_text, pointer_text, overflow_text, valid_text, change_word, links_text, entries_word, entry_text, sorted_text, stats_text, refusal_text};
ghost use Rattle.ord_machine.specs.Invalidation.{is_overflow};

use crate::fault::Fault;
use crate::form::Form;
use crate::pairs::{
    Pair, PairReply, ShownBefore, ShownMaximum, ShownNeighbour, ShownOverflow, ShownPair,
    ShownPointer,
};
use ord_machine::Reply;
use std::alloc::{AllocError, Allocator};
use std::cmp::Ordering;
use std::fmt::Write;
use triple_ord::{InvalidationOption, InvalidationResult, OrdEntryKind, OrdInsertionError, P0};

/// Returns a line for each reply, and one for the fault, if any. `forms` has the form of each reply.
pub fn text_of<A: Allocator>(
    alloc: A,
    forms: &[Form],
    replies: &[PairReply<A>],
    fault: Option<Fault>,
) -> Result<String<A>, AllocError>
    ensures { IfOk result (λ text.
        string_bytes text ≡ reply_lines forms.now replies.now ++ fault_line fault) }
{
    let mut text = lines_of(alloc, forms, replies)?;
    if let Some(fault) = fault {
        write!(text, "{fault}\n")?;
    }
    Ok(text)
}

fn lines_of<A: Allocator>(
    alloc: A,
    forms: &[Form],
    replies: &[PairReply<A>],
) -> Result<String<A>, AllocError>
    ensures { IfOk result (λ text. string_bytes text ≡ reply_lines forms.now replies.now) }
{
    let mut text = String::new(alloc);
    for (form, reply) in forms.iter().zip(replies) {
        push_reply(&mut text, *form, reply)?;
    }
    Ok(text)
}

/// Adds the line of a reply.
fn push_reply<A: Allocator>(
    text: &mut String<A>,
    form: Form,
    reply: &PairReply<A>,
) -> Result<(), AllocError>
    ensures { Adds result text.old text.new (reply_text form reply.now ++ 10 ∷ []) }
{
    match reply {
        Reply::Inserted(kind, before) => push_insertion(text, *kind, *before),
        Reply::Refused(refusal) => push_refusal(text, *refusal),
        Reply::Found(found, _) => push_optional_pointer(text, *found),
        Reply::Similar(found, _) => push_similar(text, *found),
        Reply::Count(visits) => write!(text, "visits {visits}\n"),
        Reply::Item(item) => push_item(text, item_word(form), *item),
        Reply::Removed(removed) => push_removal(text, form, *removed),
        Reply::Renewed(renewed) => push_renewal(text, *renewed),
        Reply::Changed(changed) => push_change(text, change_word(form), *changed),
        Reply::At(p) => push_optional_pointer(text, *p),
        Reply::Links(links) => push_links(text, *links),
        Reply::Entries(entries) => push_entries(text, entries_word(form), entries),
        Reply::Ranks(ranks) => push_ranks(text, ranks),
        Reply::Done => text.push_str("ok\n"),
        Reply::ReductionRefused => text.push_str("refused reduction\n"),
        Reply::Sorted(sorted) => push_sorted(text, *sorted),
        Reply::Stats(len, capacity, generation, maximum) => {
            push_stats(text, *len, *capacity, *generation, *maximum)
        }
    }
}

fn push_insertion<A: Allocator>(
    text: &mut String<A>,
    kind: OrdEntryKind<P0>,
    before: Option<Pair>,
) -> Result<(), AllocError>
    ensures { Adds result text.old text.new (insertion_text kind before ++ 10 ∷ []) }
{
    let before = ShownBefore(before);
    match kind {
        OrdEntryKind::New(p) => {
            let pointer = ShownPointer(p);
            write!(text, "new {pointer}{before}\n")
        }
        OrdEntryKind::Replacing(p) => {
            let pointer = ShownPointer(p);
            write!(text, "replaced {pointer}{before}\n")
        }
    }
}

fn push_refusal<A: Allocator>(
    text: &mut String<A>,
    refusal: OrdInsertionError,
) -> Result<(), AllocError>
    ensures { Adds result text.old text.new
        (codes "refused " ++ refusal_text refusal ++ 10 ∷ []) }
{
    let why = reason(refusal);
    write!(text, "refused {why}\n")
}

/// Returns why a command failed, in a word.
fn reason(refusal: OrdInsertionError) -> &'static str
    ensures { result.now ≡ refusal_text refusal }
{
    match refusal {
        OrdInsertionError::FailedOrdRequirement => "order",
        OrdInsertionError::NotWithinCapacity => "capacity",
        OrdInsertionError::BeyondMaxCapacity => "maximum",
        OrdInsertionError::AllocError => "memory",
    }
}

fn push_optional_pointer<A: Allocator>(
    text: &mut String<A>,
    p: Option<P0>,
) -> Result<(), AllocError>
    ensures { Adds result text.old text.new (optional_pointer_text p ++ 10 ∷ []) }
{
    match p {
        Some(p) => {
            let pointer = ShownPointer(p);
            write!(text, "at {pointer}\n")
        }
        None => write!(text, "none\n"),
    }
}

fn push_similar<A: Allocator>(
    text: &mut String<A>,
    found: Option<(P0, Ordering)>,
) -> Result<(), AllocError>
    ensures { Adds result text.old text.new (similar_text found ++ 10 ∷ []) }
{
    match found {
        Some((p, order)) => {
            let pointer = ShownPointer(p);
            let order = order_word(order);
            write!(text, "similar {pointer} {order}\n")
        }
        None => write!(text, "none\n"),
    }
}

/// Returns how a key compares to an entry's, in a word.
fn order_word(order: Ordering) -> &'static str
    ensures { result.now ≡ order_text order }
{
    match order {
        Ordering::Less => "less",
        Ordering::Equal => "equal",
        Ordering::Greater => "greater",
    }
}

fn push_item<A: Allocator>(
    text: &mut String<A>,
    word: &str,
    item: Option<Pair>,
) -> Result<(), AllocError>
    ensures { Adds result text.old text.new (item_text word.now item ++ 10 ∷ []) }
{
    match item {
        Some(item) => {
            let pair = ShownPair(item);
            write!(text, "{word} {pair}\n")
        }
        None => write!(text, "none\n"),
    }
}

fn item_word(form: Form) -> &'static str
    ensures { result.now ≡ item_word form }
{
    match form {
        Form::Replaced => "old",
        _ => "item",
    }
}

fn push_removal<A: Allocator>(
    text: &mut String<A>,
    form: Form,
    removed: InvalidationResult<(P0, Pair)>,
) -> Result<(), AllocError>
    ensures { Adds result text.old text.new
        (valid_text (λ taken. codes "removed " ++ taken_text form taken) removed ++ 10 ∷ []) }
{
    match removed {
        InvalidationResult::Success(taken) => push_taken(text, form, taken, false),
        InvalidationResult::GenerationOverflow(taken) => push_taken(text, form, taken, true),
        InvalidationResult::InvalidPtr => write!(text, "invalid\n"),
    }
}

fn push_taken<A: Allocator>(
    text: &mut String<A>,
    form: Form,
    taken: (P0, Pair),
    overflow: bool,
) -> Result<(), AllocError>
    ensures { Adds result text.old text.new
        (codes "removed " ++ taken_text form taken ++ overflow_text overflow ++ 10 ∷ []) }
{
    let pointer = ShownPointer(taken.0);
    let pair = ShownPair(taken.1);
    let overflow = ShownOverflow(overflow);
    match form {
        Form::WithPointer => write!(text, "removed {pointer} {pair}{overflow}\n"),
        _ => write!(text, "removed {pair}{overflow}\n"),
    }
}

fn push_renewal<A: Allocator>(
    text: &mut String<A>,
    renewed: InvalidationResult<P0>,
) -> Result<(), AllocError>
    ensures { Adds result text.old text.new
        (valid_text (λ p. codes "now " ++ pointer_text p) renewed ++ 10 ∷ []) }
{
    match renewed {
        InvalidationResult::Success(p) => push_now(text, p, false),
        InvalidationResult::GenerationOverflow(p) => push_now(text, p, true),
        InvalidationResult::InvalidPtr => write!(text, "invalid\n"),
    }
}

fn push_now<A: Allocator>(text: &mut String<A>, p: P0, overflow: bool) -> Result<(), AllocError>
    ensures { Adds result text.old text.new
        (codes "now " ++ pointer_text p ++ overflow_text overflow ++ 10 ∷ []) }
{
    let pointer = ShownPointer(p);
    let overflow = ShownOverflow(overflow);
    write!(text, "now {pointer}{overflow}\n")
}

fn push_change<A: Allocator>(
    text: &mut String<A>,
    word: &str,
    changed: InvalidationOption<()>,
) -> Result<(), AllocError>
    ensures { Adds result text.old text.new
        (word.now ++ overflow_text (is_overflow changed) ++ 10 ∷ []) }
{
    let overflow = ShownOverflow(matches!(changed, InvalidationOption::GenerationOverflow(())));
    write!(text, "{word}{overflow}\n")
}

fn change_word(form: Form) -> &'static str
    ensures { result.now ≡ change_word form }
{
    match form {
        Form::Cleared => "cleared",
        _ => "ok",
    }
}

fn push_links<A: Allocator>(
    text: &mut String<A>,
    links: Option<(Option<u32>, Option<u32>)>,
) -> Result<(), AllocError>
    ensures { Adds result text.old text.new (links_text links ++ 10 ∷ []) }
{
    match links {
        Some((prev, next)) => {
            let prev = ShownNeighbour(prev);
            let next = ShownNeighbour(next);
            write!(text, "neighbours {prev} {next}\n")
        }
        None => write!(text, "none\n"),
    }
}

fn push_entries<A: Allocator>(
    text: &mut String<A>,
    word: &str,
    entries: &[(P0, Pair)],
) -> Result<(), AllocError>
    ensures { Adds result text.old text.new
        (word.now ++ flat_map (λ e. codes " " ++ entry_text e) entries.now ++ 10 ∷ []) }
{
    text.push_str(word)?;
    for (p, item) in entries {
        let pointer = ShownPointer(*p);
        let pair = ShownPair(*item);
        write!(text, " {pointer}={pair}")?;
    }
    write!(text, "\n")
}

fn entries_word(form: Form) -> &'static str
    ensures { result.now ≡ entries_word form }
{
    match form {
        Form::Drained => "drained",
        _ => "list",
    }
}

fn push_ranks<A: Allocator>(text: &mut String<A>, ranks: &[u8]) -> Result<(), AllocError>
    ensures { Adds result text.old text.new
        (codes "ranks" ++ flat_map (λ k. codes " " ++ decimal k) ranks.now ++ 10 ∷ []) }
{
    text.push_str("ranks")?;
    for rank in ranks {
        write!(text, " {rank}")?;
    }
    write!(text, "\n")
}

fn push_sorted<A: Allocator>(text: &mut String<A>, sorted: bool) -> Result<(), AllocError>
    ensures { Adds result text.old text.new (sorted_text sorted ++ 10 ∷ []) }
{
    if sorted {
        write!(text, "ok\n")
    } else {
        write!(text, "incorrect ordering\n")
    }
}

fn push_stats<A: Allocator>(
    text: &mut String<A>,
    len: usize,
    capacity: usize,
    generation: u64,
    maximum: Option<usize>,
) -> Result<(), AllocError>
    ensures { Adds result text.old text.new
        (stats_text len capacity generation maximum ++ 10 ∷ []) }
{
    let maximum = ShownMaximum(maximum);
    write!(
        text,
        "len {len} capacity {capacity} generation {generation} max {maximum}\n"
    )
}
