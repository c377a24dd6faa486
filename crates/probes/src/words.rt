// Words that a caller lends for the values of an outcome.
ghost use Rattle.std.specs.Prelude.{◌≡◌, slice_set};

// Stores v as word k, if there is one.
pub fn put_word(words: &mut [u64], k: usize, v: u64)
    ensures { words.new ≡ slice_set words.old k v }
{
    if k < words.len() {
        words[k] = v;
    }
}
