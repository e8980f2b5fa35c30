// Grey levels: a colour, or each of some lent words, taken through the table.
#![tactic(auto)]

mod levels;

ghost use Rattle.std.specs.Prelude.{◌≡◌, map};
ghost use Rattle.grey.specs.Grey.{grey_level};
ghost use Rattle.grey.specs.LevelTable.{level_in, HoldsLevels};

use levels::LEVELS;

// The table. Its rule is proved here, for all 4,096 levels.
fn table() -> &'static [u64; 256]
    ensures { HoldsLevels result.now }
{
    &LEVELS
}

// The level that a table has for a colour.
fn level_in(table: &[u64; 256], colour: u16) -> u8
    ensures { result ≡ level_in table.now colour }
{
    let word = table[(colour % 4096 / 16) as usize];
    ((word >> (60 - colour % 16 * 4)) % 16) as u8
}

// The level of a colour.
#[tactic(auto, using(crate::proofs::TableRule::each_word))]
pub fn grey(colour: u16) -> u8
    ensures { result ≡ grey_level colour }
{
    level_in(table(), colour)
}

// Each word becomes its level.
pub fn grey_words(words: &mut [u16])
    ensures { words.new ≡ map grey_level words.old }
{
    for word in words.iter_mut() {
        *word = grey(*word).into();
    }
}
