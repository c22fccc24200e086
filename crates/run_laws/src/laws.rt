//! Laws of a run's log: its lines are in the ranges of what is read back, by how large the meshes of a job may be, and what the generated
//! job makes. Each is the contract of a function that does nothing.

ghost use Rattle.std.specs.Prelude.{ℕ, ◌≡◌, None};
ghost use Rattle.std.specs.List.{AllByRecursion};
ghost use Rattle.edit_any.specs.Dispatch.{OfEdits};
ghost use Rattle.edit_split.specs.Answer.{OfSplits};
ghost use Rattle.edit_flip.specs.Answer.{OfFlips};
ghost use Rattle.edit_collapse.specs.Answer.{OfCollapses};
ghost use Rattle.edit_zip.specs.Answer.{OfZips};
ghost use Rattle.edit_pinch.specs.Answer.{OfPinches};
ghost use Rattle.run_laws.specs.Names.{VerticesAreInRange, FacesAreInRange, EdgesAreInRange, PairsAreInRange, FailingPairsAreInRange, FirstMeetingIsInRange, BlocksAreInRange};
ghost use Rattle.run_laws.specs.Answers.{AnswersInRange};
ghost use Rattle.run_laws.specs.Lines.{CandidatesAreInRange, PassLinesAreInRange, FitLinesAreInRange, EditLinesAreInRange, StepLinesAreInRange, WaysAreInRange, MeshLinesAreInRange};
ghost use Rattle.run_laws.specs.Texts.{MeshFaultsAreInRange, ShapeFaultsAreInRange, StepFaultsAreInRange, DirectivesAreInRange, DirectivesAreFew};
ghost use Rattle.run_laws.specs.Directives.{EffectsAreInRange, LogsAreInRange};
ghost use Rattle.run_laws.specs.Inputs.{InputsAreInRange, LogsOfMeshesAreInRange};
ghost use Rattle.mesh_make.specs.Cubes.{IsRow};
ghost use Rattle.track_engine.specs.Effects.{Ended};
ghost use Rattle.run_laws.specs.Whole.{MovesWhole, moved_in, log_of_cubes};

/// What a sound mesh names is in the log's ranges: its live vertices and faces, its edges by their ends in order, its pairs, also
/// those that fail in a motion and the first that meets, and its blocks of two or more live vertices.
pub fn names_are_in_range()
    ensures vertices { VerticesAreInRange }
    ensures faces { FacesAreInRange }
    ensures edges { EdgesAreInRange }
    ensures pairs { PairsAreInRange }
    ensures failing { FailingPairsAreInRange }
    ensures meeting { FirstMeetingIsInRange }
    ensures blocks { BlocksAreInRange }
{}

/// What each edit answers of a sound and closed mesh is in the log's ranges: the change that is done, or the reason against it with
/// the pair that is hit.
pub fn answers_are_in_range()
    ensures split { OfSplits AnswersInRange }
    ensures flip { OfFlips AnswersInRange }
    ensures collapse { OfCollapses AnswersInRange }
    ensures zip { OfZips AnswersInRange }
    ensures pinch { OfPinches AnswersInRange }
    ensures any { OfEdits AnswersInRange }
{}

/// What a pass asks of a sound mesh is in the log's ranges; and of a sound and closed mesh so are all lines of a pass whose length is, and
/// those of a pass by a sizing, whatever that wants.
pub fn passes_are_in_range()
    ensures candidates { CandidatesAreInRange }
    ensures lines { PassLinesAreInRange }
    ensures fits { FitLinesAreInRange }
{}

/// The lines of edits that are asked for of a sound and closed mesh are in the log's ranges, where the ids that are asked are, and of
/// each edge the smaller end comes first. So they are read again.
pub fn asked_edits_are_in_range()
    ensures { EditLinesAreInRange }
{}

/// The lines of a step are in the log's ranges, where its number is, the pairs that fail, the blocks, and the way in which it is taken,
/// and where it moves live vertices of a sound mesh. The way in which a step of a clear mesh is taken is, and the line of a sound mesh that
/// is stored, where the mesh is within the limits of the scale.
pub fn steps_are_in_range()
    ensures step { StepLinesAreInRange }
    ensures way { WaysAreInRange }
    ensures mesh { MeshLinesAreInRange }
{}

/// What the two texts of a job give is in the log's ranges: of a mesh text or a step text that is outside its grammar the line with its
/// reason, and what is wrong with the shape of a mesh text's lists. So are a step text's directives and the lines where they stand, and
/// there are no more of them than bytes.
pub fn texts_are_in_range()
    ensures mesh { MeshFaultsAreInRange }
    ensures shape { ShapeFaultsAreInRange }
    ensures steps { StepFaultsAreInRange }
    ensures directives { DirectivesAreInRange }
    ensures few { DirectivesAreFew }
{}

/// Where a run stands well, within the limits of the scale, and its counts have room, the lines of a directive are in the log's ranges,
/// and so is the reason against it, whatever is given to it. So are the lines of all directives of a step file, one after the other, and
/// the last line that tells how they ended.
pub fn directives_are_in_range()
    ensures effects { EffectsAreInRange }
    ensures logs { LogsAreInRange }
{}

/// What two files give is in the log's ranges, where each has at most as many bytes as may be read, or is seen to have more, in a number
/// of the log: the refusal; or a sound and closed mesh and few directives. The log of a mesh that is clear as well, and within the
/// limits of the scale, from its own line on, is in the log's ranges.
pub fn inputs_are_in_range()
    ensures inputs { InputsAreInRange }
    ensures logs { LogsOfMeshesAreInRange }
{}

/// The generated job is lawful, whatever its key: none of its directives is refused, and in each of its three steps all pairs pass,
/// so each is taken whole.
pub fn the_generated_job_is_lawful()
    ensures ending { (n key : ℕ) → IsRow n → (log_of_cubes n key).ending ≡ Ended None }
    ensures whole { (n key : ℕ) → IsRow n → AllByRecursion MovesWhole (log_of_cubes n key).lines }
    ensures steps { (n key : ℕ) → IsRow n → moved_in (log_of_cubes n key).lines ≡ 3 }
{}
