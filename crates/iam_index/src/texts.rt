// The resource texts of a world's statements in which no variable stands, by number.
ghost use Rattle.std.specs.Prelude.{◌≡◌, IfSome, Some, map, List};
ghost use Rattle.std.specs.List.{slice_get};
ghost use Rattle.iam_glob.specs.declared.sign.Sign.{Sign};

use crate::index::Index;
use crate::lists::Listed;
use iam_layers::Standing;
use iam_policy::Resources;
use iam_text::{Glob, Sign, TemplateForm};
use std::alloc::Global;
use std::collections::BTreeMap;
use std::marker::Model;

/// How many texts are numbered at most.
const MOST_TEXTS: usize = 65_536;

/// Resource texts without variables whose matches are worth remembering, each distinct one once: many statements have the same. They
/// are told apart by their patterns, never as they are written. Of two texts with one print the second has no number, and nor has a
/// text for which there was no memory. A contract sees the patterns, each at its number.
#[derive(Drop)]
pub struct Texts<'a> {
    globs: Vec<&'a Glob>,
    // The number of a text by its print.
    numbers: BTreeMap<u64, usize>,
}

impl<'a> Model for Texts<'a> {
    ghost Value = { List (List Sign) };

    ghost view = { λ texts. map (λ glob. glob.now) texts.globs.items };
}

impl<'a> Texts<'a> {
    /// Those of all the statements that an index lists.
    pub fn of(alloc: Global, index: &Index<'a>) -> Texts<'a> {
        let mut texts = Texts {
            globs: Vec::new(alloc),
            numbers: BTreeMap::new(alloc),
        };
        for org in index.orgs() {
            texts.add_all(org.statements.as_slice());
        }
        texts.add_lists(index.requesters());
        texts.add_lists(index.resource_lists().lists.as_slice());
        texts
    }

    /// The number of a text, where it has one.
    pub fn number(&self, glob: &Glob) -> Option<usize>
        ensures { IfSome result (λ n. slice_get self.now n ≡ Some glob.now) }
    {
        if is_simple(glob) {
            return None;
        }
        let number = *self.numbers.get(&glob.print(0))?;
        if number < self.globs.len() && self.globs[number].is_same(glob) {
            Some(number)
        } else {
            None
        }
    }

    fn add_lists(&mut self, lists: &[Listed<'a>]) {
        for listed in lists {
            self.add_all(listed.statements.as_slice());
        }
    }

    fn add_all(&mut self, statements: &[Standing<'a>]) {
        for standing in statements {
            if let Some(element) = standing.statement.resource() {
                self.add_element(element);
            }
        }
    }

    fn add_element(&mut self, element: &'a Resources) {
        for text in element.texts() {
            if let TemplateForm::Fixed(glob) = text.form() {
                self.add(glob);
            }
        }
    }

    /// Numbers the text, where there is room for it.
    fn add(&mut self, glob: &'a Glob) {
        let number = self.globs.len();
        let print = glob.print(0);
        if number >= MOST_TEXTS || is_simple(glob) || self.numbers.contains_key(&print) {
            return;
        }
        if self.globs.push(glob).is_ok() {
            match self.numbers.insert(print, number) {
                Ok(_) => (),
                Err(_) => (),
            }
        }
    }
}

/// Whether the signs are given characters alone, or these and then a `*`: such a text is matched as fast as it is looked up.
fn is_simple(glob: &Glob) -> bool {
    let signs = glob.signs();
    for i in 0..signs.len() {
        match signs.at(i) {
            Sign::Given(_) => (),
            Sign::One => return false,
            Sign::Any => return i + 1 == signs.len(),
        }
    }
    true
}
