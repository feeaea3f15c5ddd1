// Words of a line, as the scripts of both programs have them.
ghost use Rattle.std.specs.Prelude.{◌≡◌, Ok, Err, IfOk, IfErr};
ghost use Rattle.script.specs.Switch.{switch};
ghost use Rattle.fault.specs.declared.Fault.TheVariants.{Malformed};

use fault::Fault;
use std::str::FromStr;

// A number of any kind; a word that is none, fault 1.
pub fn number<T: FromStr>(word: &str) -> Result<T, Fault>
where
    T::Err: Drop,
    ensures read { IfOk result (λ n. T.from_str_gives word.now (Ok n)) }
    ensures refused { IfErr result (λ f. (f ≡ Malformed) × ((e : T.Err) × T.from_str_gives word.now (Err e))) }
{
    word.parse::<T>().ok().ok_or(Fault::Malformed)
}

// `on` or `off`.
pub fn switch(word: &str) -> Result<bool, Fault>
    ensures { result ≡ switch word.now }
{
    match word {
        "on" => Ok(true),
        "off" => Ok(false),
        _ => Err(Fault::Malformed),
    }
}
