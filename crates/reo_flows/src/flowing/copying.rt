//! Lists of numbers, written over one another.
ghost use Rattle.std.specs.Prelude.{◌≡◌, OnOk};

use reo_values::{List, NoMemory};

/// Writes some numbers over what a list has. `NoMemory` is out of memory.
pub fn copy_over(list: &mut List<usize>, those: &[usize]) -> Result<(), NoMemory>
    ensures { OnOk result (list.new ≡ those.now) }
{
    list.truncate(those.len());
    let count = list.len();
    for index in 0..count {
        *list.at_mut(index) = those[index];
    }
    for index in count..those.len() {
        list.push(those[index])?;
    }
    Ok(())
}
