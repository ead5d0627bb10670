use pk_base::Tag;

/// The tags of the parts of a body of one vertex.
#[derive(Clone, Copy)]
pub struct BareParts {
    pub body: Tag,
    pub shell: Tag,
    pub face: Tag,
    pub loop_: Tag,
    pub vertex: Tag,
}
