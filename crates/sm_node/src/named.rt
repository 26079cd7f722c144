use sm_base::DiskNo;

/// A volume of a node that a path names: its number, and the number of its disk.
#[derive(Clone, Copy, Debug)]
pub struct Named {
    pub at: usize,
    pub disk: DiskNo,
}
