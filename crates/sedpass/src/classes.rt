//! Classes of bytes: those that no set of an expression distinguishes are in one.
ghost use Rattle.sedre.specs.declared.types.Node.{Node};
ghost use Rattle.std.specs.Prelude.{List, ◌<◌};
ghost use Rattle.sedpass.specs.Classes.{AreClasses, HaveSets, IsNumbering, IsNumbered, IsFiner};

use sedre::ByteSet;

/// Classes of bytes.
#[derive(Drop)]
pub struct Classes {
    /// The class of each byte.
    pub of: [u8; 256],
    /// How many classes there are.
    pub count: usize,
}

/// Gives the key a number, the next one unless it has one: 256 is none. Gives how many there are then.
fn give(numbers: &mut [u16; 512], key: usize, count: usize) -> usize
    requires key { key < 512 }
    requires count { count < 256 }
    ensures { IsNumbering numbers.old count → IsNumbered numbers.old key count numbers.new result }
{
    if numbers[key] == 256 {
        numbers[key] = count as u16;
        count + 1
    } else {
        count
    }
}

/// The classes, parted by a set: bytes with one key, which is their class and whether they are in the set, are in one, and these are
/// numbered as they come.
fn split(classes: &[u8; 256], set: &ByteSet) -> Classes
    ensures { IsFiner classes.now set.now result.of result.count }
{
    let mut numbers = [256u16; 512];
    let mut of = [0u8; 256];
    let mut count = 0;
    for byte in 0..256usize {
        let key = 2 * usize::from(classes[byte]) + usize::from(set.has(byte as u8));
        count = give(&mut numbers, key, count);
        of[byte] = numbers[key] as u8;
    }
    Classes { of, count }
}

/// The classes of bytes of an expression with these sets. A set of one byte costs nothing: the first time that gets a class of its own,
/// as long as there are numbers, and then it has one.
pub fn classes_of(sets: &[ByteSet]) -> Classes
    ensures { (nodes : List Node) → HaveSets nodes sets.now → AreClasses nodes result.of result.count }
{
    let mut classes = Classes {
        of: [0; 256],
        count: 1,
    };
    let mut alone = [false; 256];
    for i in 0..sets.len() {
        match sets[i].sole() {
            Some(byte) if alone[byte as usize] => {}
            Some(byte) if classes.count < 256 => {
                alone[byte as usize] = true;
                classes.of[byte as usize] = classes.count as u8;
                classes.count += 1;
            }
            _ => classes = split(&classes.of, &sets[i]),
        }
    }
    classes
}
