use descriptor_queue::Pages;
use raw_region::Region;
use subpool_storage::SubpoolStorage;
use task_tree::TaskTree;
use vsm_elements::Elements;

/// The storage in elements and frames: the unassigned pages of both regions, the subpools with their pages, their
/// free storage and their cell pools, the tasks with their registers, and the frames of assigned pages.
///
/// It owns every element that is not a change's.
#[derive(Drop)]
pub struct Parts {
    pub elements: Elements,
    pub region: Region,
    pub unassigned: Pages,
    pub subpools: SubpoolStorage,
    pub tasks: TaskTree,
}
