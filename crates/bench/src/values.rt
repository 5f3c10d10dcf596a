//! Values go in as counts and come out as words, so that the player can be generic over the kind.
ghost use Rattle.std.specs.Prelude.{◌≡◌};
ghost use Rattle.kinds.specs.Settings.{setting_word};
ghost use Rattle.kinds.specs.declared.setting.Setting.TheVariants.{Count};
ghost use Rattle.process.specs.Tells.{answer_told};
ghost use Rattle.bench.specs.Plays.{call_with, told_with};

use kinds::{Kind, Setting};
use store::{Answer, Call};

// The call with its count as a value, by the word that it has as a setting.
pub fn with_value<V: Kind>(call: Call<u32>) -> Call<V>
    ensures { result ≡ call_with (λ n. V.unpacking (setting_word (Count n))) call }
{
    call.map(|count| V::unpack(Setting::Count(count).pack()))
}

// The answer with its value as a word.
pub fn with_word<V: Kind>(answer: Answer<V>) -> Answer<u64>
    ensures { answer_told result ≡ told_with V.packing (answer_told answer) }
{
    answer.map(|value| value.pack())
}
