use anyhow::bail;
use wsym_io::{FileShelf, Shelf};

/// The greatest length of a file, in bytes.
const LONGEST: u64 = 67_108_864;

/// The word at a place, empty where there is none.
pub(crate) fn word(words: &[String], place: usize) -> &str {
    words.get(place).map_or("", |word| word.as_str())
}

/// The number that the word at a place spells.
pub(crate) fn number(words: &[String], place: usize) -> anyhow::Result<u64> {
    match word(words, place).parse::<u64>() {
        Ok(number) => Ok(number),
        Err(_) => bail!("no number where one is wanted"),
    }
}

/// The number of at most 32 bits that the word at a place spells.
pub(crate) fn small_number(words: &[String], place: usize) -> anyhow::Result<u32> {
    match word(words, place).parse::<u32>() {
        Ok(number) => Ok(number),
        Err(_) => bail!("no number where one is wanted"),
    }
}

/// The bytes of a file.
pub(crate) fn file(rt: HostRuntime, name: &str) -> anyhow::Result<Vec<u8>> {
    let mut shelf = FileShelf::new(&rt);
    match shelf.read_all(rt.alloc(), name, LONGEST) {
        Ok(bytes) => Ok(bytes),
        Err(_) => bail!("the file can't be read"),
    }
}
