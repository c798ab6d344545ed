use super::Search;
use crate::hierarchy::Hierarchy;
use crate::level::{Level, narrow};
use crate::solver::{HeightRange, Target};
use crate::tuning::{CLEAR_LOSS, PATCH};
use std::alloc::{AllocError, Global};
use std::num::{nearest_i64_to_f64, nearest_u64_to_f64};

/// Sums over the vertices of a patch that fire while counts are burnt.
#[derive(Clone, Copy, Default)]
struct Sum {
    /// The chips above the least heights, and the room between least and full heights.
    chips: f64,
    room: f64,
    /// How many more times they fired before the counts were lowered.
    lost: f64,
    vertices: f64,
}

impl Sum {
    /// The new height of a vertex of this degree with this height before.
    fn height(&self, degree: i64, before: f64, is_first: bool) -> f64 {
        let HeightRange { least, full } = HeightRange::of(degree);
        let mean = least + (full - least) * (self.chips / self.room);
        let height = if self.room <= 0.0 {
            before
        } else if is_first {
            mean
        } else if self.lost >= self.vertices * CLEAR_LOSS {
            2.0 * mean - before
        } else {
            before
        };
        height.max(0.0).min(full)
    }
}

impl Search {
    /// Fits target heights to what counts that were lowered between walls leave in each patch. After the first fit a
    /// height moves twice the way to the mean of its patch, if the patch has clearly lost firings, since between walls
    /// counts go only part of the way.
    pub(super) fn fit_heights(
        &mut self,
        alloc: Global,
        target: Target<'_>,
    ) -> Result<(), AllocError> {
        let mut patches = vec![in alloc; 0; self.heights.len()]?;
        let mut sums = vec![in alloc; Sum::default(); find_patches(&self.hierarchy, &mut patches)]?;
        self.add_up(target, &patches, &mut sums);
        let level: &Level = &self.hierarchy.finest;
        for (vertex, height) in self.heights.iter_mut().enumerate() {
            if let Some(patch) = patches.get(vertex) {
                if let Some(sum) = sums.get(*patch as usize) {
                    *height = sum.height(level.degree(vertex), *height, self.fits == 0);
                }
            }
        }
        Ok(())
    }

    /// Adds up the vertices of each patch.
    fn add_up(&self, target: Target<'_>, patches: &[u32], sums: &mut [Sum]) {
        for (vertex, patch) in patches.iter().enumerate() {
            let (counts, fired) = (self.counts.as_slice(), target.fired);
            let own = self.burning.at(vertex);
            if own.fires > 0 && vertex < counts.len() && vertex < fired.len() {
                if let Some(sum) = sums.get_mut(*patch as usize) {
                    let degree = self.hierarchy.finest.degree(vertex);
                    let HeightRange { least, full } = HeightRange::of(degree);
                    let fires = nearest_i64_to_f64(own.fires);
                    sum.chips += nearest_i64_to_f64(own.chips(degree)) - least;
                    sum.room += full - least;
                    sum.lost += counts[vertex] - nearest_u64_to_f64(fired[vertex]) - fires;
                    sum.vertices += 1.0;
                }
            }
        }
    }
}

/// Finds the patch of each vertex, of about `PATCH` vertices that lie together: its aggregate on the first level with
/// few enough vertices. Returns the number of patches.
fn find_patches(hierarchy: &Hierarchy, patches: &mut [u32]) -> usize {
    for (vertex, patch) in patches.iter_mut().enumerate() {
        *patch = narrow(vertex);
    }
    let mut fine: &Level = &hierarchy.finest;
    for level in &hierarchy.coarser {
        if fine.rows.len() <= patches.len() / PATCH {
            break;
        }
        for patch in patches.iter_mut() {
            if let Some(aggregate) = fine.aggregates.get(*patch as usize) {
                *patch = *aggregate;
            }
        }
        fine = level;
    }
    fine.rows.len()
}
