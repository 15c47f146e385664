ghost use Rattle.std.specs.Prelude.{◌≡◌, ◌∷◌, [], None};
ghost use Rattle.mj_deeds.specs.declared.answer.Answer.TheVariants as answers;

use crate::answer::Answer;
use std::alloc::Global;
use std::marker::Model;
use std::mem;

/// A list of answers. A pass alone takes no memory, and the memory of other lists serves again.
#[derive(Drop)]
pub struct Answers {
    pass: [Answer; 1],
    listed: Option<Vec<Answer>>,
    // the memory for the next list, while a pass alone is listed
    kept: Option<Vec<Answer>>,
}

impl Model for Answers {
    ghost use Rattle.std.specs.Prelude.{List};
    ghost use Rattle.std.specs.Option.{option_map_or};
    ghost use Rattle.mj_deeds.specs.declared.answer.Answer.{Answer};

    ghost Value = { List Answer };

    ghost view = { λ a. option_map_or (λ items. items.items) a.listed a.pass };
}

impl Answers {
    /// The list of these answers.
    pub fn from_vec(items: Vec<Answer>) -> Answers
        ensures { result ≡ items.items }
    {
        Answers {
            pass: one_pass(),
            listed: Some(items),
            kept: None,
        }
    }

    /// The list of a pass alone, which names no actor.
    pub fn pass_alone() -> Answers
        ensures { result ≡ answers.Pass None ∷ [] }
    {
        Answers {
            pass: one_pass(),
            listed: None,
            kept: None,
        }
    }

    /// The memory of the list, as a vector without items; the list may be any until one is set.
    pub fn take(&mut self, alloc: Global) -> Vec<Answer>
        ensures { result.items ≡ [] }
    {
        match mem::replace(&mut self.listed, None) {
            Some(items) => emptied(items),
            None => match mem::replace(&mut self.kept, None) {
                Some(items) => emptied(items),
                None => Vec::new(alloc),
            },
        }
    }

    /// Lists a pass alone, which names no actor, and keeps the memory of a vector for the next list.
    pub fn set_pass(&mut self, memory: Vec<Answer>)
        ensures { self.new ≡ answers.Pass None ∷ [] }
    {
        self.pass = one_pass();
        self.listed = None;
        self.kept = Some(memory);
    }

    /// Its answers, in order.
    pub fn as_slice(&self) -> &[Answer]
        ensures { result.now ≡ self.now }
    {
        match &self.listed {
            Some(items) => items.as_slice(),
            None => &self.pass,
        }
    }
}

// A pass alone, which names no actor.
fn one_pass() -> [Answer; 1]
    ensures { result ≡ answers.Pass None ∷ [] }
{
    [Answer::Pass { actor: None }]
}

// The vector without its items.
fn emptied(items: Vec<Answer>) -> Vec<Answer>
    ensures { result.items ≡ [] }
{
    let mut items = items;
    items.clear();
    items
}
