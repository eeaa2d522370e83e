// The calls of a running job.
ghost use Rattle.std.specs.Prelude.{◌≡◌, ◌%◌};
ghost use Rattle.mesh.specs.Meshes.{vertex_total};
ghost use Rattle.runs.specs.Jobs.{fresh_numbers, vertices_now, triangles_now};
ghost use Rattle.job.specs.Answers.{job_of, report_of};
ghost use Rattle.job.specs.Levels.{level_of};

use crate::closed::{Closed, Report};
use crate::level::Level;
use crate::running::Running;
use mesh::{ReadingSurface, Totals};
use survey::survey_indexed;

impl Running {
    // A job whose base has these totals.
    pub(crate) fn start(base: Totals) -> Running
        requires { base.triangles % 2 ≡ 0 }
        ensures { job_of result ≡ fresh_numbers base.vertices base.triangles }
    {
        Running {
            base_vertices: base.vertices,
            base_triangles: base.triangles,
            records: 0,
            forest_edges: 0,
            trees: 0,
        }
    }

    // The totals of the job's mesh.
    pub(crate) fn totals(&self) -> Totals
        ensures vertices { result.vertices ≡ vertices_now (job_of self.now) }
        ensures triangles { result.triangles ≡ triangles_now (job_of self.now) }
    {
        let growth = self.forest_edges - self.trees;
        Totals {
            vertices: self.base_vertices + growth,
            triangles: self.base_triangles + 2 * growth,
        }
    }

    // What the job's numbers tell.
    fn report(&self) -> Report
        ensures { result ≡ report_of (job_of self.now) }
    {
        let totals = self.totals();
        Report {
            vertices: totals.vertices,
            edges: 3 * totals.triangles / 2,
            triangles: totals.triangles,
            records: self.records,
            forest_edges: self.forest_edges,
            trees: self.trees,
        }
    }

    // The level that the job has come to in this store.
    pub(crate) fn level<S: ReadingSurface>(&self, store: &S) -> Level
        ensures { result ≡ level_of (S.mesh store.now) (job_of self.now) }
    {
        Level {
            found: survey_indexed(store),
            told: self.report(),
        }
    }

    // Ends the job, and keeps its report.
    pub fn close(self) -> Closed
        ensures { result.report ≡ report_of (job_of self) }
    {
        Closed {
            report: self.report(),
        }
    }
}
