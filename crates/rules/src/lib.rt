// The settings of a job and the answers of the calls. The definitions of specs/ say what each answer means.

#![tactic(auto)]

// A length in micrometres. Only the rules of reach and bound turn it into pixels.
#[derive(Clone, Copy)]
pub struct Micrometres(pub u32);

// A length in pixels: a reach, how far a disc runs to each side, or the radius c of cleaning.
#[derive(Clone, Copy)]
pub struct Pixels(pub usize);

// A bound on squared distances between pixels.
#[derive(Clone, Copy)]
pub struct Bound(pub usize);

// What all layers of a job share: width, height, number of layers, pixel width and overhang.
#[derive(Clone, Copy)]
pub struct Settings {
    pub w: usize,
    pub h: usize,
    pub n: usize,
    pub pitch: Micrometres,
    pub overhang: Micrometres,
}

// A pixel of a stack, all counted from 0.
#[derive(Clone, Copy)]
pub struct Place {
    pub layer: usize,
    pub row: usize,
    pub column: usize,
}

// A row of a stack, counted from 0.
#[derive(Clone, Copy)]
pub struct RowPlace {
    pub layer: usize,
    pub row: usize,
}

// Why a call refuses: its number, and the place where it has one, a row of two parts or a pixel of three.
#[derive(Clone, Copy)]
pub enum Refusal {
    Number(u8),
    InRow(u8, RowPlace),
    AtPixel(u8, Place),
}

// The answer of the reach call, which tells no place.
#[derive(Clone, Copy)]
pub enum Reached {
    By(Pixels),
    Refused(u8),
}

// The answer of planning, of cleaning and of posts.
#[derive(Clone, Copy)]
pub enum Planned {
    Done,
    Refused(Refusal),
}

// The answer of the checker.
#[derive(Clone, Copy)]
pub enum Judged {
    Accepted,
    Refused(Refusal),
}

// What reading tells of a job file: the offset of the first byte after the count of each section.
#[derive(Clone, Copy)]
pub struct Layout {
    pub settings: Settings,
    pub stored: bool,
    pub head: usize,
    pub part: usize,
    pub support: usize,
    pub rings: usize,
}

// The answer of reading.
#[derive(Clone, Copy)]
pub enum ReadJob {
    Job(Layout),
    Refused(Refusal),
}

// The answer of copying rings out of a file.
#[derive(Clone, Copy)]
pub enum CopiedRings {
    Copied,
    Refused(Refusal),
}

// The answer of writing: the job's length.
#[derive(Clone, Copy)]
pub enum WrittenJob {
    Length(usize),
    Refused(Refusal),
}
