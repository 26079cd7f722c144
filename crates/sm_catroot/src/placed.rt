use sm_base::{DiskNo, Path};

/// Where a volume lies.
#[derive(Debug, Drop)]
pub struct Placed {
    pub path: Path,
    pub disk: DiskNo,
}
