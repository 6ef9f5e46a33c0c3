//! Courses by ids, lines, clients and datanodes.

ghost use Rattle.std.specs.Prelude.{◌≡◌, ℕ, ◌<◌, ◌≤◌, ◌+◌, ◌^◌, ◌==◌, OnOk, OnErr, if◌then◌else◌};
ghost use Rattle.oz_buffer.specs.courses.Courses.{
  asked_course,
  asked_line,
  course_at,
  decided_course,
  decided_line,
  id_key,
  line_at,
  line_key,
  node_at,
  said_line,
  told_at,
  told_line,
  unasked,
  unasked_line,
  untouched,
};

use crate::courses::OutOfMemory;
use crate::courses::course::{Course, LineCourse, NodeCourse};
use crate::courses::keys::{number_of_id, number_of_line};
use oz_requests::AskId;
use oz_sorted::SortedMap;
use std::alloc::Global;
use std::marker::Model;

/// What became of ids, lines, clients and datanodes, with room reserved for further ones.
#[derive(Drop)]
pub struct Courses {
    ids: SortedMap<u64, Course>,
    lines: SortedMap<u64, LineCourse>,
    clients: SortedMap<u64, u64>,
    nodes: SortedMap<u64, NodeCourse>,
    spare: usize,
}

impl Model for Courses {
    ghost use Rattle.std.specs.Prelude.{◌≤◌};
    ghost use Rattle.oz_buffer.specs.courses.Courses.{Kept};

    ghost Value = { Kept };

    ghost view = { λ courses. record {
      ids = courses.ids.entries;
      lines = courses.lines.entries;
      clients = courses.clients.entries;
      nodes = courses.nodes.entries;
      spare = courses.spare;
    } };

    ghost invariant = { λ courses. record {
      ids : courses.spare ≤ courses.ids.spare;
      lines : courses.spare ≤ courses.lines.spare;
      clients : courses.spare ≤ courses.clients.spare;
      nodes : courses.spare ≤ courses.nodes.spare;
    } };
}

impl Courses {
    /// Nothing was asked yet. It takes no memory.
    pub fn new(alloc: Global) -> Courses
        ensures ids { (key : ℕ) → course_at result key ≡ unasked }
        ensures lines { (key : ℕ) → line_at result key ≡ unasked_line }
        ensures clients { (client : ℕ) → told_at result client ≡ 0 }
        ensures nodes { (dn : ℕ) → node_at result dn ≡ untouched }
        ensures spare { result.spare ≡ 0 }
    {
        Courses {
            ids: SortedMap::new(alloc),
            lines: SortedMap::new(alloc),
            clients: SortedMap::new(alloc),
            nodes: SortedMap::new(alloc),
            spare: 0,
        }
    }

    /// Makes room for so many things more that may become of one of them, where there is less. The more there are the more
    /// room is made at once, so that it costs the same each time.
    pub fn reserve(&mut self, alloc: Global, more: usize) -> Result<(), OutOfMemory>
        ensures ids { self.new.ids ≡ self.old.ids }
        ensures lines { self.new.lines ≡ self.old.lines }
        ensures clients { self.new.clients ≡ self.old.clients }
        ensures nodes { self.new.nodes ≡ self.old.nodes }
        ensures spare { OnOk result (more ≤ self.new.spare) }
        ensures kept { self.old.spare ≤ self.new.spare }
        ensures err { OnErr result (self.new ≡ self.old) }
    {
        if more <= self.spare {
            return Ok(());
        }
        let plenty = more.saturating_add(self.ids.len() / 8);
        self.ids.reserve(alloc, plenty)?;
        self.lines.reserve(alloc, plenty)?;
        self.clients.reserve(alloc, plenty)?;
        self.nodes.reserve(alloc, plenty)?;
        self.spare = plenty;
        Ok(())
    }

    /// What became of an id.
    pub fn course(&self, id: AskId) -> Course
        ensures { result ≡ course_at self.now (id_key id) }
    {
        match self.ids.get(&number_of_id(id)) {
            Some(course) => *course,
            None => Course {
                asked: false,
                pending: false,
                late: false,
                index: None,
            },
        }
    }

    /// What became of a line.
    pub fn line(&self, client: u16, line: u16) -> LineCourse
        ensures { result ≡ line_at self.now (line_key client line) }
    {
        match self.lines.get(&number_of_line(client, line)) {
            Some(course) => *course,
            None => LineCourse {
                ask: None,
                index: 0,
                told: false,
                said: 0,
            },
        }
    }

    /// How many lines a client was told.
    pub fn told_of(&self, client: u16) -> u64
        ensures { result ≡ told_at self.now client }
    {
        match self.clients.get(&u64::from(client)) {
            Some(told) => *told,
            None => 0,
        }
    }

    /// What became of a datanode.
    pub fn node(&self, dn: u8) -> NodeCourse
        ensures { result ≡ node_at self.now dn }
    {
        match self.nodes.get(&u64::from(dn)) {
            Some(course) => *course,
            None => NodeCourse {
                halted: None,
                up: true,
                started: true,
            },
        }
    }

    /// A datanode comes to this.
    pub fn comes_to(&mut self, dn: u8, course: NodeCourse)
        requires { 0 < self.old.spare }
        ensures ids { self.new.ids ≡ self.old.ids }
        ensures lines { self.new.lines ≡ self.old.lines }
        ensures clients { self.new.clients ≡ self.old.clients }
        ensures nodes { (other : ℕ) → node_at self.new other ≡ (if dn == other then course else node_at self.old other) }
        ensures spare { self.new.spare + 1 ≡ self.old.spare }
    {
        self.spare -= 1;
        self.nodes.insert(u64::from(dn), course);
    }

    /// An id is asked, while the manager has halted or not.
    pub fn asked(&mut self, id: AskId, late: bool)
        requires { 0 < self.old.spare }
        ensures ids { (key : ℕ) → course_at self.new key ≡ (if id_key id == key then asked_course late (course_at self.old key)
            else course_at self.old key) }
        ensures lines { (key : ℕ) → line_at self.new key ≡ (if line_key id.client id.line == key
            then asked_line id (line_at self.old key) else line_at self.old key) }
        ensures clients { self.new.clients ≡ self.old.clients }
        ensures nodes { self.new.nodes ≡ self.old.nodes }
        ensures spare { self.new.spare + 1 ≡ self.old.spare }
    {
        let course = self.course(id);
        let line = self.line(id.client, id.line);
        self.spare -= 1;
        self.ids.insert(
            number_of_id(id),
            Course {
                asked: true,
                pending: true,
                late,
                index: course.index,
            },
        );
        self.lines.insert(
            number_of_line(id.client, id.line),
            LineCourse {
                ask: Some(id),
                index: line.index,
                told: line.told,
                said: line.said,
            },
        );
    }

    /// An id is decided, with this index.
    pub fn decided(&mut self, id: AskId, index: u64)
        requires { 0 < self.old.spare }
        ensures ids { (key : ℕ) → course_at self.new key ≡ (if id_key id == key then decided_course index (course_at self.old key)
            else course_at self.old key) }
        ensures lines { (key : ℕ) → line_at self.new key ≡ (if line_key id.client id.line == key
            then decided_line index (line_at self.old key) else line_at self.old key) }
        ensures clients { self.new.clients ≡ self.old.clients }
        ensures nodes { self.new.nodes ≡ self.old.nodes }
        ensures spare { self.new.spare + 1 ≡ self.old.spare }
    {
        let course = self.course(id);
        let line = self.line(id.client, id.line);
        self.spare -= 1;
        self.ids.insert(
            number_of_id(id),
            Course {
                asked: course.asked,
                pending: false,
                late: course.late,
                index: Some(index),
            },
        );
        self.lines.insert(
            number_of_line(id.client, id.line),
            LineCourse {
                ask: line.ask,
                index: line.index.max(index),
                told: line.told,
                said: line.said,
            },
        );
    }

    /// A client is told a line.
    pub fn told(&mut self, client: u16, line: u16)
        requires room { 0 < self.old.spare }
        requires few { told_at self.old client + 1 < 2 ^ 64 }
        ensures ids { self.new.ids ≡ self.old.ids }
        ensures lines { (key : ℕ) → line_at self.new key ≡ (if line_key client line == key
            then told_line (line_at self.old key) else line_at self.old key) }
        ensures clients { (other : ℕ) → told_at self.new other ≡ (if client == other then told_at self.old other + 1
            else told_at self.old other) }
        ensures nodes { self.new.nodes ≡ self.old.nodes }
        ensures spare { self.new.spare + 1 ≡ self.old.spare }
    {
        let course = self.line(client, line);
        let told = self.told_of(client);
        self.spare -= 1;
        self.lines.insert(
            number_of_line(client, line),
            LineCourse {
                ask: course.ask,
                index: course.index,
                told: true,
                said: course.said,
            },
        );
        self.clients.insert(u64::from(client), told + 1);
    }

    /// Something is said of a line's blocks.
    pub fn said(&mut self, client: u16, line: u16)
        requires room { 0 < self.old.spare }
        requires few { (line_at self.old (line_key client line)).said + 1 < 2 ^ 64 }
        ensures ids { self.new.ids ≡ self.old.ids }
        ensures lines { (key : ℕ) → line_at self.new key ≡ (if line_key client line == key
            then said_line (line_at self.old key) else line_at self.old key) }
        ensures clients { self.new.clients ≡ self.old.clients }
        ensures nodes { self.new.nodes ≡ self.old.nodes }
        ensures spare { self.new.spare + 1 ≡ self.old.spare }
    {
        let course = self.line(client, line);
        self.spare -= 1;
        self.lines.insert(
            number_of_line(client, line),
            LineCourse {
                ask: course.ask,
                index: course.index,
                told: course.told,
                said: course.said + 1,
            },
        );
    }
}
