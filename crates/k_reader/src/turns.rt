// The turns of a script.
ghost use Rattle.std.specs.Prelude.{◌≡◌, ◌≤◌, ◌+◌, List, ℕ, length, Ok, Err, Some, IfOk, OnOk, if◌then◌else◌, None, option_map, nat_le};
ghost use Rattle.std.specs.List.{list_all, sum_by};
ghost use Rattle.k_script.specs.Limits.{steps_of};
ghost use Rattle.k_reader.specs.Reading.{has_numbers, item_in, items_in, accept_turns};

use crate::draft::{Refusal, Sketch};
use crate::fault::Why;
use crate::resolve::below;
use k_lines::ItemWord;
use k_script::Item;
use std::alloc::{AllocError, Global};

const MOST_ITEMS: usize = 10_000;

const MOST_STEPS: u32 = 1_000_000;

fn has_numbers(word: ItemWord) -> bool
    ensures { result ≡ has_numbers word }
{
    match word {
        ItemWord::Steps { carrier, count } => {
            !carrier.led && count.in_range(1, MOST_STEPS).is_some()
        }
        ItemWord::Park { carrier } => !carrier.led,
    }
}

fn all_have_numbers(words: &[ItemWord]) -> bool
    ensures { result ≡ list_all has_numbers words.now }
{
    words.iter().all(|w| has_numbers(*w))
}

fn item_in(carriers: u8, word: ItemWord) -> Option<Item>
    ensures { result ≡ item_in carriers word }
{
    match word {
        ItemWord::Steps { carrier, count } => {
            let count = count.in_range(1, MOST_STEPS)?;
            let carrier = below(carriers, carrier)?;
            Some(Item::Steps { carrier, count })
        }
        ItemWord::Park { carrier } => {
            let carrier = below(carriers, carrier)?;
            Some(Item::Park { carrier })
        }
    }
}

fn items_in(
    alloc: Global,
    carriers: u8,
    words: &[ItemWord],
) -> Result<Option<Vec<Item>>, AllocError>
    ensures { IfOk result (λ items. option_map (λ i. i.items) items ≡ items_in carriers words.now) }
{
    let mut items = Vec::new(alloc);
    let mut rest = words;
    while let [word, after @ ..] = rest {
        let Some(item) = item_in(carriers, *word) else {
            return Ok(None);
        };
        items.push(item)?;
        rest = after;
    }
    Ok(Some(items))
}

fn steps_of(item: Item) -> u32
    ensures { result ≡ steps_of item }
{
    match item {
        Item::Steps { count, .. } => count,
        Item::Park { .. } => 0,
    }
}

/// The sum of the counts of these items and of those before, if it is not too great.
fn turned_after(turned: u32, items: &[Item]) -> Option<u32>
    requires { turned ≤ 1000000 }
    ensures { result ≡ (if nat_le (turned + sum_by steps_of items.now) 1000000 then Some (turned + sum_by steps_of items.now) else None) }
{
    let mut turned = turned;
    let mut rest = items;
    while let [item, after @ ..] = rest {
        let count = steps_of(*item);
        if count > MOST_STEPS - turned {
            return None;
        }
        turned += count;
        rest = after;
    }
    Some(turned)
}

impl Sketch {
    /// Takes in the items of a `turns` line. After an `Err` the sketch is of no use.
    #[tactic(auto, unfolding(crate::specs::Reading::accept_turns))]
    pub(crate) fn accept_turns(&mut self, alloc: Global, words: &[ItemWord]) -> Result<(), Refusal>
        ensures ok { OnOk result (accept_turns self.old words.now ≡ Ok self.new) }
        ensures bad { (why : Why) → result ≡ Err (Refusal.Bad why) → accept_turns self.old words.now ≡ Err why }
    {
        let carriers = self.carriers();
        if self.open_program.is_some() || self.threads.is_empty() || carriers < 2 {
            return Err(Refusal::Bad(Why::Order));
        }
        if !all_have_numbers(words) {
            return Err(Refusal::Bad(Why::Number));
        }
        let Some(items) = items_in(alloc, carriers, words)? else {
            return Err(Refusal::Bad(Why::Table));
        };
        if items.len() > MOST_ITEMS - self.turns.len() {
            return Err(Refusal::Bad(Why::Many));
        }
        let Some(turned) = turned_after(self.turned, &items) else {
            return Err(Refusal::Bad(Why::Many));
        };
        self.turns.extend_from_slice(&items)?;
        self.turned = turned;
        Ok(())
    }
}
