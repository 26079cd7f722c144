ghost use Rattle.std.specs.Prelude.{◌≡◌, ◌++◌, ◌∷◌, [], IfOk, IfErr};
ghost use Rattle.std.specs.Option.{option_map};
ghost use Rattle.sm_grammar.specs.Options.{has_text, is_given, value_given};
ghost use Rattle.sm_grammar.specs.Table.{option_text};

use crate::fault::LineFault;
use crate::table::OptionName;
use crate::value::Value;
use std::alloc::Global;
use std::marker::Model;

/// An option that was read, and its value.
#[derive(Debug, Drop)]
pub struct Pair {
    pub option: OptionName,
    pub value: Value,
}

/// The options that were read, in the order of the line.
#[derive(Debug, Drop)]
pub struct Given {
    pairs: Vec<Pair>,
}

impl Model for Given {
    ghost use Rattle.std.specs.Prelude.{List};
    ghost use Rattle.sm_grammar.specs.declared.given.Pair.{Pair};

    ghost Value = { List Pair };

    ghost view = { λ g. g.pairs.items };
}

fn has_option(option: OptionName, other: OptionName) -> bool
    ensures { result ≡ has_text (option_text option) other }
{
    option.text() == other.text()
}

impl Given {
    pub fn new(alloc: Global) -> Given
        ensures { result ≡ [] }
    {
        Given {
            pairs: Vec::new(alloc),
        }
    }

    /// Adds an option behind the others.
    pub fn push(&mut self, pair: Pair) -> Result<(), LineFault>
        ensures pushed { IfOk result (λ _. self.new ≡ self.old ++ (pair ∷ [])) }
        ensures memory { IfErr result (λ fault. fault ≡ LineFault.NoMemory) }
    {
        self.pairs.push(pair)?;
        Ok(())
    }

    /// Whether the option stands.
    #[tactic(auto, unfolding(crate::specs::Options::is_given))]
    pub fn has(&self, option: OptionName) -> bool
        ensures { result ≡ is_given self.now option }
    {
        self.pairs
            .iter()
            .any(|pair| has_option(option, pair.option))
    }

    /// The value of the option, where it stands.
    #[tactic(auto, unfolding(crate::specs::Options::value_given))]
    pub fn value(&self, option: OptionName) -> Option<&Value>
        ensures { option_map (λ v. v.now) result ≡ value_given self.now option }
    {
        let pair = self
            .pairs
            .iter()
            .find(|pair| has_option(option, pair.option))?;
        Some(&pair.value)
    }
}
