ghost use Rattle.std.specs.Prelude.{◌≡◌, option_map};
ghost use Rattle.track_input.specs.Words.{is_file_word, format_of, mesh_name_of};
ghost use Rattle.track_input.specs.Named.{mesh_name};

/// How a mesh is written in a file.
#[derive(Clone, Copy, Debug, PartialEq, Eq)]
pub enum Format {
    /// Wavefront OBJ.
    Obj,
    /// OFF, the Object File Format of Geomview.
    Off,
    /// PLY, the Polygon File Format, in its ASCII form.
    Ply,
}

/// A file of a mesh: its name, and the format that the ending of the name picks.
#[derive(Clone, Copy)]
pub struct MeshFile<'a> {
    pub name: &'a str,
    pub format: Format,
}

// Not empty, and without a dash in front.
pub(crate) fn is_file_word(word: &str) -> bool
    ensures { result ≡ is_file_word word.now }
{
    match word.as_bytes() {
        [] => false,
        [first, ..] => *first != b'-',
    }
}

// The format that the ending of a name picks.
fn format_of(name: &str) -> Option<Format>
    ensures { result ≡ format_of name.now }
{
    let name = name.as_bytes();
    if name.ends_with(b".obj") {
        Some(Format::Obj)
    } else if name.ends_with(b".off") {
        Some(Format::Off)
    } else if name.ends_with(b".ply") {
        Some(Format::Ply)
    } else {
        None
    }
}

// The mesh file that a word names.
pub(crate) fn mesh_file(word: &str) -> Option<MeshFile<'_>>
    ensures { option_map mesh_name result ≡ mesh_name_of word.now }
{
    if !is_file_word(word) {
        return None;
    }
    match format_of(word) {
        Some(format) => Some(MeshFile { name: word, format }),
        None => None,
    }
}
