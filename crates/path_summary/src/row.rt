//! A row of the table while it is made: the summaries from one vertex to each vertex, by code.

ghost use Rattle.std.specs.Prelude.{◌≡◌, ◌<◌, ◌≤◌, ◌*◌, ℕ, Some, suc, true, false, length, IfOk, slice_set, slice_index_or};
ghost use Rattle.semantics.specs.Summary.{Summary as Definition};
ghost use Rattle.graph.specs.Limits.{max_vertices, max_edges};
ghost use Rattle.path_summary.specs.Codes.{AreCodes, Grows, row_of};
ghost use Rattle.path_summary.specs.Made.{IsPacked};
ghost use Rattle.path_summary.specs.Rows.{HasRoom, IsClosed, Stepped, entry};
ghost use Rattle.path_summary.specs.Walks.{HasGot, HaveLoops, IsGoodRow, IsOpened, IsUnderWay};

use crate::links::{Link, Links};
use crate::summaries::Summaries;
use crate::summary::Summary;
use loop_context::Action;
use record_core::NoMemory;
use std::alloc::Global;
use std::marker::Model;

/// For each vertex, the code of a summary of a path to it; 0 if none is known.
#[derive(Drop)]
pub struct Row {
    codes: Vec<usize>,
}

impl Model for Row {
    ghost use Rattle.std.specs.Prelude.{List, ℕ};

    ghost Value = { List ℕ };

    ghost view = { λ r. r.codes.items };
}

impl Row {
    /// The whole row of a vertex.
    pub fn of(
        alloc: Global,
        links: &Links,
        summaries: &mut Summaries,
        vertex: u32,
    ) -> Result<Row, NoMemory>
        requires vertex { vertex < length links.now.depths }
        requires few { length links.now.depths ≤ max_vertices }
        requires edges { length links.now.edges ≤ max_edges }
        requires loops { ∥ HaveLoops links.now ∥₁ }
        ensures grows { Grows summaries.old summaries.new }
        ensures packed { IfOk result (λ r. IsPacked links.now summaries.new r vertex) }
    {
        let mut row = Row::opening(alloc, links, summaries, vertex)?;
        row.fill(links, summaries)?;
        Ok(row)
    }

    /// The first row: from a vertex to itself only.
    fn opening(
        alloc: Global,
        links: &Links,
        summaries: &mut Summaries,
        vertex: u32,
    ) -> Result<Row, NoMemory>
        requires vertex { vertex < length links.now.depths }
        requires loops { ∥ HaveLoops links.now ∥₁ }
        ensures grows { Grows summaries.old summaries.new }
        ensures codes { IfOk result (λ r. AreCodes summaries.new r) }
        ensures got { IfOk result (λ r. HasGot links.now vertex 0 0 (row_of summaries.new r)) }
    {
        let home = summaries.code_of(Summary::identity(links.depth(vertex)))?;
        let codes = vec![in alloc; 0; links.vertex_count()]?;
        let mut row = Row { codes };
        row.put(vertex, home);
        Ok(row)
    }

    /// The codes by vertex.
    pub fn codes(&self) -> &[usize]
        ensures { result.now ≡ self.now }
    {
        &self.codes
    }

    /// The codes, given away.
    pub fn into_codes(self) -> Vec<usize>
        ensures { result.items ≡ self }
    {
        self.codes
    }

    /// The code at a vertex; 0 beyond the last vertex.
    #[inline(always)]
    fn code(&self, x: u32) -> usize
        ensures { result ≡ slice_index_or self.now x 0 }
    {
        match self.codes.get(x as usize) {
            Some(code) => *code,
            None => 0,
        }
    }

    fn put(&mut self, x: u32, code: usize)
        ensures { self.new ≡ slice_set self.old x code }
    {
        if (x as usize) < self.codes.len() {
            self.codes[x as usize] = code;
        }
    }

    /// Extends the row over one edge; true if that changed something.
    fn step(&mut self, summaries: &mut Summaries, link: &Link) -> Result<bool, NoMemory>
        requires codes { AreCodes summaries.old self.old }
        requires room { (f : Definition) → entry (row_of summaries.old self.old) link.now.source ≡ Some f → HasRoom link.now.acts f }
        ensures grows { Grows summaries.old summaries.new }
        ensures codes { IfOk result (λ b. AreCodes summaries.new self.new) }
        ensures stepped { IfOk result (λ b. Stepped link.now (row_of summaries.old self.old) (row_of summaries.new self.new)) }
        ensures still { IfOk result (λ b. b ≡ false → self.new ≡ self.old) }
    {
        let code = self.code(link.source());
        if code == 0 {
            return Ok(false);
        }
        let action = link.action();
        let old = self.code(link.target());
        if action == Action::Stay && code == old {
            return Ok(false);
        }
        let next = summaries.after(code, action)?;
        if summaries.is_below(old, next) {
            return Ok(false);
        }
        self.put(link.target(), next);
        Ok(true)
    }

    /// Extends the row over each edge once; true if that changed something.
    fn pass(&mut self, links: &Links, summaries: &mut Summaries) -> Result<bool, NoMemory>
        requires codes { AreCodes summaries.old self.old }
        requires edges { length links.now.edges ≤ max_edges }
        requires loops { ∥ HaveLoops links.now ∥₁ }
        requires way { IsUnderWay links.now (row_of summaries.old self.old) }
        ensures grows { Grows summaries.old summaries.new }
        ensures codes { IfOk result (λ b. AreCodes summaries.new self.new) }
        ensures got { IfOk result (λ b. (v m : ℕ) → v < length links.now.depths → HasGot links.now v (max_edges * m) m (row_of summaries.old self.old) →
            HasGot links.now v (max_edges * suc m) (suc m) (row_of summaries.new self.new)) }
        ensures closed { IfOk result (λ b. b ≡ false → IsClosed links.now (row_of summaries.new self.new)) }
    {
        let mut changed = false;
        for link in links.edges() {
            if self.step(summaries, link)? {
                changed = true;
            }
        }
        Ok(changed)
    }

    /// Makes passes until one changes nothing, at most as many as there are vertices. Then no edge leads below an entry.
    fn fill(&mut self, links: &Links, summaries: &mut Summaries) -> Result<(), NoMemory>
        requires codes { AreCodes summaries.old self.old }
        requires few { length links.now.depths ≤ max_vertices }
        requires edges { length links.now.edges ≤ max_edges }
        requires loops { ∥ HaveLoops links.now ∥₁ }
        requires way { IsOpened links.now (row_of summaries.old self.old) }
        ensures grows { Grows summaries.old summaries.new }
        ensures codes { IfOk result (λ b. AreCodes summaries.new self.new) }
        ensures good { IfOk result (λ b. (v : ℕ) → v < length links.now.depths → HasGot links.now v 0 0 (row_of summaries.old self.old) →
            IsGoodRow links.now v (row_of summaries.new self.new)) }
    {
        for _ in 0..links.vertex_count() {
            if !self.pass(links, summaries)? {
                return Ok(());
            }
        }
        Ok(())
    }
}
