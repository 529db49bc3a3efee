ghost use Rattle.std.specs.Prelude.{◌≡◌, ◌++◌, codes, map, option_map, string_bytes};
ghost use Rattle.ufs_words.specs.Values.{behind, first_word, image_word, mirror_word, option_value};

// What stands behind the name and `=` in a word.
fn attached<'a>(word: &'a str, front: &str) -> Option<&'a str>
    ensures { option_map (λ s. s.now) result ≡ behind front.now word.now }
{
    word.strip_prefix(front)
}

fn first_word(words: &[String]) -> Option<&str>
    ensures { option_map (λ s. s.now) result ≡ first_word (map string_bytes words.now) }
{
    match words {
        [word, ..] => Some(word.as_str()),
        [] => None,
    }
}

// The word behind the first one that is the name, or what stands behind the front in one word, where that comes first.
fn option_value<'a>(words: &'a [String], name: &str, front: &str) -> Option<&'a str>
    requires { front.now ≡ name.now ++ codes "=" }
    ensures { option_map (λ s. s.now) result ≡ option_value name.now (map string_bytes words.now) }
{
    for i in 0..words.len() {
        let word = words[i].as_str();
        if word == name {
            return first_word(&words[i + 1..]);
        }
        if let Some(value) = attached(word, front) {
            return Some(value);
        }
    }
    None
}

/// The path of the image's file: the word behind the first word `--image`, or the rest of a word that begins with `--image=`
/// where that comes first. Takes no memory.
pub fn image_of(words: &Vec<String>) -> Option<&str>
    ensures { option_map (λ s. s.now) result ≡ image_word (map string_bytes words.now.items) }
{
    option_value(words.as_slice(), "--image", "--image=")
}

/// The path of the mirror's file, by `--mirror` in the same way.
pub fn mirror_of(words: &Vec<String>) -> Option<&str>
    ensures { option_map (λ s. s.now) result ≡ mirror_word (map string_bytes words.now.items) }
{
    option_value(words.as_slice(), "--mirror", "--mirror=")
}
