/// A version of the program: three numbers.
#[derive(Clone, Copy, PartialEq, Eq)]
pub struct Version {
    pub major: u64,
    pub minor: u64,
    pub patch: u64,
}

/// What tells a file from others: how many bytes it has, and their SHA-256 digest.
#[derive(Clone, Copy)]
pub struct FileMark {
    pub bytes: u64,
    pub digest: [u8; 32],
}

/// A card: the version of the program that ran the job, the decimals of its mesh, and what tells its mesh, its steps and its log from
/// other files.
#[derive(Clone, Copy)]
pub struct Card {
    pub program: Version,
    pub decimals: u8,
    pub mesh: FileMark,
    pub steps: FileMark,
    pub log: FileMark,
}
