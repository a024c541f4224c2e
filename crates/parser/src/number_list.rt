//! Lists of numbers after a command's operands.

ghost use Rattle.std.specs.Prelude.{◌≡◌, [], IfOk};

use std::alloc::{AllocError, AllocFailed, Global};
use std::marker::Model;
use std::sync::Arc;

/// A list of numbers of 32 bits. All turns of a block share the lists of its commands. An empty one takes no memory.
/// A contract sees the list.
#[derive(Drop)]
pub struct NumberList {
    numbers: Option<Arc<Vec<u32>>>,
}

impl Model for NumberList {
    ghost use Rattle.std.specs.Prelude.{List, ℕ};
    ghost use Rattle.parser.specs.NumberLists.{number_list};

    ghost Value = { List ℕ };

    ghost view = { number_list };
}

impl NumberList {
    /// Returns an empty list.
    pub fn none() -> NumberList
        ensures { result ≡ [] }
    {
        NumberList { numbers: None }
    }

    /// Returns a list of these numbers. Fails only if out of memory.
    pub fn new(alloc: Global, numbers: Vec<u32>) -> Result<NumberList, AllocFailed<Vec<u32>>>
        ensures { IfOk result (λ list. list ≡ numbers.items) }
    {
        if numbers.is_empty() {
            return Ok(NumberList::none());
        }
        let shared = Arc::new(alloc, numbers)?;
        Ok(NumberList {
            numbers: Some(shared),
        })
    }

    /// Returns the numbers in order.
    pub fn as_slice(&self) -> &[u32]
        ensures { result.now ≡ self.now }
    {
        match &self.numbers {
            None => &[],
            Some(numbers) => numbers.as_slice(),
        }
    }

    /// Returns the list once more, which takes no memory. Fails only if it is shared too often.
    pub fn share(&self) -> Result<NumberList, AllocError>
        ensures { IfOk result (λ list. list ≡ self.now) }
    {
        match &self.numbers {
            None => Ok(NumberList::none()),
            Some(numbers) => {
                let shared = Arc::try_clone(numbers)?;
                Ok(NumberList {
                    numbers: Some(shared),
                })
            }
        }
    }
}
