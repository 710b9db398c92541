/// The lab file of a call without arguments: three nodes in a row, each owned by one student.
pub const BUILT_IN: &str = r#"events = 100
sessions = 4
links = [[1, 2], [2, 3]]

[teacher]
name = "tess"
key = "chalk"

[[student]]
name = "ana"
key = "a-key"

[[student]]
name = "ben"
key = "b-key"

[[student]]
name = "cyd"
key = "c-key"

[[node]]
id = 1
owner = "ana"

[[node]]
id = 2
owner = "ben"

[[node]]
id = 3
owner = "cyd"
"#;
