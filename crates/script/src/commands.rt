// What a script holds.

ghost use Rattle.std.specs.Prelude.{◌≡◌};
ghost use Rattle.script.specs.Scripts.{command_value, letter as letter_of, size as size_of};

// A field, by its letter in a script.
#[derive(Clone, Copy, Debug, PartialEq, Eq)]
pub enum FieldName {
    Five,
    Four,
    Bytes,
    Words,
}

impl FieldName {
    // How many symbols the field has.
    pub fn size(self) -> u32
        ensures { result ≡ size_of self }
    {
        match self {
            FieldName::Five => 5,
            FieldName::Four => 4,
            FieldName::Bytes => 256,
            FieldName::Words => 65537,
        }
    }
}

// A command, with the boxes, rows and symbols that it takes, by their numbers.
#[derive(Debug, PartialEq, Drop)]
pub enum Command {
    Put(Vec<u32>),
    Amend {
        data_box: usize,
        row: usize,
        symbol: u32,
    },
    Read,
    Column {
        wanted: usize,
    },
    Message {
        helper: usize,
        lost: usize,
    },
    Lose {
        lost: usize,
    },
    Renew {
        lost: usize,
    },
    Rebuild,
}

impl Command {
    // The letter that the command has in a script and in a transcript.
    pub fn letter(&self) -> char
        ensures { result ≡ letter_of (command_value self.now) }
    {
        match self {
            Command::Put(_) => 'P',
            Command::Amend { .. } => 'A',
            Command::Read => 'R',
            Command::Column { .. } => 'C',
            Command::Message { .. } => 'M',
            Command::Lose { .. } => 'L',
            Command::Renew { .. } => 'N',
            Command::Rebuild => 'B',
        }
    }
}

// A script: a field, the size m of a cabinet over it, and commands to be run
// in their order.
#[derive(Debug, PartialEq, Drop)]
pub struct Script {
    pub field: FieldName,
    pub m: usize,
    pub commands: Vec<Command>,
}
