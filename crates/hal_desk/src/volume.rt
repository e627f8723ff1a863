// Which file a command works on.
ghost use Rattle.std.specs.Prelude.{◌≡◌, map};
ghost use Rattle.std.specs.String.{string_bytes};
ghost use Rattle.hal_desk.specs.Volume.{makes_file, path_of};

/// The path of the volume: the second word, and an empty path where there is none.
pub fn path_of(words: &[String]) -> &[u8]
    ensures { result.now ≡ path_of (map string_bytes words.now) }
{
    match words {
        [_, volume, ..] => volume.as_bytes(),
        _ => &[],
    }
}

/// Whether the command makes its volume, and with it a file that is absent.
pub fn makes_file(words: &[String]) -> bool
    ensures { result ≡ makes_file (map string_bytes words.now) }
{
    match words {
        [name, ..] => {
            let name = name.as_str();
            name == "define" || name == "make" || name == "exercise"
        }
        [] => false,
    }
}
