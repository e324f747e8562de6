// A closed walk, as the search hands it out.
#![tactic(auto)]

ghost use Rattle.std.specs.Prelude.{◌≡◌, ◌<◌, ◌≤◌, take};
ghost use Rattle.page_meaning.specs.Limits.{most_vertices};

use limits::VERTICES;

// Its vertices are the first count of the array: an array and a count, since nothing here takes memory from a heap.
#[derive(Clone, Copy)]
pub struct Cycle {
    pub count: usize,
    pub vertices: [u8; VERTICES],
    pub ghost some: { 0 < count },
    pub ghost few: { count ≤ most_vertices },
}

impl Cycle {
    pub fn walk(&self) -> &[u8]
        ensures { result.now ≡ take self.now.count self.now.vertices }
    {
        &self.vertices[..self.count]
    }
}
